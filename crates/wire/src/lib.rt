// What travels by radio and what lies on a memory card: frames and images, both ways (document 01, "Frame and image").
#![tactic(auto)]

mod claim;
mod frames;
mod images;
mod number;
mod run;

pub use frames::{Frame, read_frame, write_frame};
pub use images::{IMAGE, image_length, read_image, read_image_in, write_image, write_image_in};
