// What settles where a plane's levels lie in a frame, a level's region, and what a build needs beside the frame: the head of open-svpflow's super_build.rs, its names kept.
use settings::super_opts::SuperOpts;

#[derive(Clone, Copy)]
pub struct Layout {
    pub opts: SuperOpts,
    pub x_shift: u32,
    pub y_shift: u32,
    pub pitch: usize,
}

#[derive(Clone, Copy, PartialEq, Eq)]
pub struct Region {
    pub offset: usize,
    pub width: usize,
    pub height: usize,
}

// The bytes that a build needs of spill and of scratch.
#[derive(Clone, Copy)]
pub struct Needs {
    pub spill: usize,
    pub scratch: usize,
}
