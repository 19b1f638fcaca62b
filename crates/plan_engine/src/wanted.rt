//! What is to be shown of a plan.

/// What is to be shown of a plan.
#[derive(Clone, Copy)]
pub enum Wanted {
    Dot,
    Svg,
    /// The pairs whose order the planner chose, which may not be there where they are denied.
    Choices { denied: bool },
    /// What stages take, the longest lanes, and the bound on the speed-up.
    Report,
}

impl Wanted {
    /// What these words ask for, if they do.
    pub fn by_words(words: &[String]) -> Option<Wanted> {
        let option = words.get(1).map(|word| word.as_str());
        match (words.first()?.as_str(), option) {
            _ if words.len() > 2 => None,
            ("dot", None) => Some(Wanted::Dot),
            ("svg", None) => Some(Wanted::Svg),
            ("report", None) => Some(Wanted::Report),
            ("conflicts", None) => Some(Wanted::Choices { denied: false }),
            ("conflicts", Some("--deny")) => Some(Wanted::Choices { denied: true }),
            _ => None,
        }
    }
}
