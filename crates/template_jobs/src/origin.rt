//! What a job is made from.

use pool_history::{CustomData, TemplateData};

/// A template, or what a miner brings.
#[derive(Drop)]
pub(crate) enum Origin {
    Template(TemplateData),
    Miner(CustomData),
}

/// The list that a job joins: that of the future ones, of the live ones of templates, or of the
/// miners' own, with the channel that it is for.
#[derive(Clone, Copy)]
pub(crate) enum Shelf {
    Future,
    Live,
    Own(u32),
}
