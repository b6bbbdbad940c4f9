//! The numbers of the kinds of params and of runs, in their records. A link is of the latest
//! version alone.

pub const PARAM_VALUE: u32 = 0;

pub const PARAM_PLACE: u32 = 1;

pub const PARAM_MIX: u32 = 2;

pub const PARAM_CELLS: u32 = 3;

pub const PARAM_LINK: u32 = 4;

pub const RUN_NUMBER: u32 = 0;

pub const RUN_PLACE: u32 = 1;

pub const RUN_MARK: u32 = 2;

pub const RUN_LINK: u32 = 3;
