//! The verbs of requests, and the keys of each.
ghost use Rattle.std.specs.Prelude.{◌≡◌, map};
ghost use Rattle.saga_drive.specs.Verbs as spec;

/// The verb of a request.
#[derive(Clone, Copy, Debug, PartialEq, Eq)]
pub enum Verb {
    Open,
    Next,
    Take,
    Report,
    Abort,
    Show,
    Busy,
    Ready,
    Sagas,
    Status,
    Define,
}

impl Verb {
    /// Returns the verb for its word.
    pub fn named(word: &str) -> Option<Verb>
        ensures { result ≡ spec.verb_named word.now }
    {
        match word {
            "open" => Some(Verb::Open),
            "next" => Some(Verb::Next),
            "take" => Some(Verb::Take),
            "report" => Some(Verb::Report),
            "abort" => Some(Verb::Abort),
            "show" => Some(Verb::Show),
            "busy" => Some(Verb::Busy),
            "ready" => Some(Verb::Ready),
            "list" => Some(Verb::Sagas),
            "status" => Some(Verb::Status),
            "define" => Some(Verb::Define),
            _ => None,
        }
    }

    /// The required keys of the request.
    pub fn keys(self) -> &'static [&'static str]
        ensures { map (λ k. k.now) result.now ≡ spec.keys_of self }
    {
        match self {
            Verb::Report => &["do", "saga", "step", "outcome"],
            Verb::Take | Verb::Abort | Verb::Show => &["do", "saga"],
            Verb::Open | Verb::Next | Verb::Busy => &["do"],
            Verb::Ready | Verb::Sagas | Verb::Status => &["do"],
            Verb::Define => &["do", "definition"],
        }
    }

    /// The optional keys of the request.
    pub fn optional_keys(self) -> &'static [&'static str]
        ensures { map (λ k. k.now) result.now ≡ spec.optional_keys_of self }
    {
        match self {
            Verb::Open => &["def", "name", "saga"],
            Verb::Next => &["most"],
            Verb::Take => &["step"],
            Verb::Report => &["task", "attempt"],
            Verb::Ready => &["from"],
            Verb::Sagas => &["from", "phase"],
            _ => &[],
        }
    }
}
