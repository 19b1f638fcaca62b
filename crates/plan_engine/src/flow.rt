//! Things that stand beside each other, in as many lines as it takes.

/// Where the next thing goes.
#[derive(Clone, Copy)]
pub(crate) struct Spot {
    pub(crate) left: usize,
    pub(crate) line: usize,
}

impl Spot {
    /// The place of a thing of this width: here, or at the begin of the next line, where it would go past the end.
    pub(crate) fn placed(self, begin: usize, width: usize, end: usize) -> Spot {
        if self.left > begin && self.left.saturating_add(width) > end {
            Spot {
                left: begin,
                line: self.line.saturating_add(1),
            }
        } else {
            self
        }
    }

    /// The place behind a thing of this width that stands here.
    pub(crate) fn behind(self, width: usize) -> Spot {
        Spot {
            left: self.left.saturating_add(width),
            line: self.line,
        }
    }
}
