// The rules of words, 10 to 15 and 22: does one word of an image break them?
#![tactic(auto)]

pub mod guard;
pub mod image;
pub mod landing;
pub mod single;
pub mod site;
