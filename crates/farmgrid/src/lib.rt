// The farm grid: what is claimed of the verdicts, of turns and of combining is stated in specs/ and proved in proofs/, of the definitions
// that the contracts of the crates below cite.
#![tactic(auto)]

ghost use Rattle.farmgrid.specs.Records.{CountExact};
ghost use Rattle.farmgrid.specs.Verdicts.{PointExact, SegmentExact, BoxExact};
ghost use Rattle.farmgrid.specs.ClipSpace.{NeverLost, NothingRounded, ClipExact, FoundOutside};
ghost use Rattle.farmgrid.specs.ClipPlanes.{PlanesExact, PointByMatrices, OneViewOfEach, EndlessMade};
ghost use Rattle.farmgrid.specs.Screens.{PointScreened, SegmentScreened, BoxScreened, EachPlaneScreens};
ghost use Rattle.farmgrid.specs.BlockingPlane.{BlockingExact};
ghost use Rattle.farmgrid.specs.PlanesBehind.{BehindExact};
ghost use Rattle.farmgrid.specs.WholeNumbers.{WholeSegmentExact, OneVerdict, OneAnswer};
ghost use Rattle.farmgrid.specs.ExactBoxes.{BoxVerdictExact, FiledAgrees, RecordsExact, ExactScreened, ExactTurned};
ghost use Rattle.farmgrid.specs.ExactByRecords.{ByRecords, OneBlock, TurnedByRecords, FiledAgreesByRecords, SevenOffGrid};
ghost use Rattle.farmgrid.specs.FiledApart.{FiledApart};
ghost use Rattle.farmgrid.specs.Nearest.{NearestExact, WithinExact};
ghost use Rattle.farmgrid.specs.Survey.{SurveyExact};
ghost use Rattle.farmgrid.specs.Turns.{TurnKeepsVerdicts};
ghost use Rattle.farmgrid.specs.Combining.{CombiningExact};
ghost use Rattle.farmgrid.specs.Grouping.{GroupingExact, GroupOut};
ghost use Rattle.farmgrid.specs.PrintedZeros.{CombinedSigns, PrintedOnce};

// The claims, a clause each. It does nothing, since they are of the functions of the crates below: a claim whose proof is gone fails its contract.
pub fn claims()
    ensures count_exact { CountExact }
    ensures point_exact { PointExact }
    ensures segment_exact { SegmentExact }
    ensures box_exact { BoxExact }
    ensures never_lost { NeverLost }
    ensures nothing_rounded { NothingRounded }
    ensures clip_exact { ClipExact }
    ensures found_outside { FoundOutside }
    ensures planes_exact { PlanesExact }
    ensures point_by_matrices { PointByMatrices }
    ensures one_view { OneViewOfEach }
    ensures endless_made { EndlessMade }
    ensures point_screened { PointScreened }
    ensures segment_screened { SegmentScreened }
    ensures box_screened { BoxScreened }
    ensures each_plane_screens { EachPlaneScreens }
    ensures blocking_exact { BlockingExact }
    ensures behind_exact { BehindExact }
    ensures whole_segment_exact { WholeSegmentExact }
    ensures one_verdict { OneVerdict }
    ensures one_answer { OneAnswer }
    ensures box_verdict_exact { BoxVerdictExact }
    ensures filed_agrees { FiledAgrees }
    ensures records_exact { RecordsExact }
    ensures exact_screened { ExactScreened }
    ensures exact_turned { ExactTurned }
    ensures by_records { ByRecords }
    ensures one_block { OneBlock }
    ensures turned_by_records { TurnedByRecords }
    ensures filed_agrees_by_records { FiledAgreesByRecords }
    ensures seven_off_grid { SevenOffGrid }
    ensures filed_apart { FiledApart }
    ensures nearest_exact { NearestExact }
    ensures within_exact { WithinExact }
    ensures survey_exact { SurveyExact }
    ensures turn_keeps { TurnKeepsVerdicts }
    ensures combining_exact { CombiningExact }
    ensures grouping_exact { GroupingExact }
    ensures group_out { GroupOut }
    ensures combined_signs { CombinedSigns }
    ensures printed_once { PrintedOnce }
{}
