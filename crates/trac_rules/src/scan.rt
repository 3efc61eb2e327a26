//! The fronts that scanning tells apart.

/// What the active text begins with. Each rule of scanning is for one of these.
#[derive(Clone, Copy, Debug, PartialEq, Eq)]
pub enum Front {
    /// The active text is empty.
    Nothing,
    /// `(`
    Opening,
    /// A carriage return, a line feed or a tab.
    Layout,
    /// `,`
    Comma,
    /// `#(`
    ActiveCall,
    /// `##(`
    NeutralCall,
    /// `#` that begins neither.
    Sharp,
    /// `)`
    Closing,
    /// Any other byte.
    Plain,
}
