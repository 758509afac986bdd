//! The rules of lines, each as a function over what is kept of the lines before.

pub mod answering;
pub mod ask;
pub mod closed;
pub mod conflict;
pub mod cores;
pub mod cq;
pub mod done;
pub mod easy;
pub mod ending;
pub mod forgetting;
pub mod head;
pub mod learning;
pub mod settling;
pub mod tries;
