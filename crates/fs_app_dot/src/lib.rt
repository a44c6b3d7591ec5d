//! What `--dot` writes: a picture in DOT of each contradiction and of each execution that `--why` tells.
#![tactic(auto)]

mod certified;
mod chain;
mod dot;
mod execution;
mod executions;
mod forbidden;
mod graph;
mod kinds;
mod labels;
mod nodes;
mod order;
mod picture;
mod pictures;
mod possible;
mod quoted;
mod without;

pub use certified::certified_pictures;
pub use forbidden::forbidden_pictures;
pub use fs_app_why::Telling;
pub use order::order_pictures;
pub use picture::Picture;
pub use possible::allowed_pictures;
