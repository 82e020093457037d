// The length of each record, and each limit that the code compares with.

pub const POINT_LENGTH: usize = 3;

pub const HOMOGENEOUS_LENGTH: usize = 4;

pub const RANGE_LENGTH: usize = 6;

pub const MATRIX_LENGTH: usize = 16;

pub const PLANE_LENGTH: usize = 4;

pub const RAY_LENGTH: usize = 6;

pub const HIT_LENGTH: usize = 5;

pub const PLANE_HIT_LENGTH: usize = 2;

pub const PROJECTION_LENGTH: usize = 7;

pub const BOX_LENGTH: usize = 23;

pub const CORNERS_LENGTH: usize = 24;

pub const CAMERA_LENGTH: usize = 24;

// The place of a box's flag, its last number.
pub const FLAG_PLACE: usize = 22;

// The largest coordinate of a grid point, in size.
pub const GRID_LIMIT: u64 = 65536;

// The original planes of a view, and the most that one has.
pub const FEWEST_PLANES: u32 = 6;

pub const MOST_PLANES: u32 = 14;

// The most boxes of a group.
pub const MOST_BOXES: usize = 256;

// The most bytes of a farm file, and the fewest and the most of its sections.
pub const LARGEST_FILE: usize = 65536;

pub const FEWEST_SECTIONS: usize = 2;

pub const MOST_SECTIONS: usize = 64;
