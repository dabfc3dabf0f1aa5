//! A whole script.
use crate::line::LineList;
use az_base::Options;

/// The options of a zone, and what its threads are to do.
#[derive(Debug, Drop)]
pub struct Script {
    pub options: Options,
    pub lines: LineList,
}
