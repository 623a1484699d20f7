//! The results of tests.
ghost use Rattle.std.specs.Prelude.{◌≡◌};
ghost use Rattle.test_outcome.specs.Outcome.{is_failure, is_same, label_of, name_of};

/// How a test ended.
#[derive(Clone, Copy, Debug, PartialEq, Eq)]
pub enum Outcome {
    /// Every RUN line had status 0.
    Pass,
    /// It passed in a later attempt than the first.
    Flakypass,
    /// A RUN line had another status.
    Fail,
    /// It failed, and was expected to.
    Xfail,
    /// It passed, and was expected to fail.
    Xpass,
    /// The features of its suite keep it from running.
    Unsupported,
    /// It couldn't be run, or not to its end.
    Unresolved,
}

impl Outcome {
    /// Its name, as `PASS`.
    pub fn name(self) -> &'static [u8]
        ensures { result.now ≡ name_of self }
    {
        match self {
            Outcome::Pass => b"PASS",
            Outcome::Flakypass => b"FLAKYPASS",
            Outcome::Fail => b"FAIL",
            Outcome::Xfail => b"XFAIL",
            Outcome::Xpass => b"XPASS",
            Outcome::Unsupported => b"UNSUPPORTED",
            Outcome::Unresolved => b"UNRESOLVED",
        }
    }

    /// What a summary says of tests that have it, as `Expectedly Failed`.
    pub fn label(self) -> &'static [u8]
        ensures { result.now ≡ label_of self }
    {
        match self {
            Outcome::Pass => b"Passed",
            Outcome::Flakypass => b"Passed With Retry",
            Outcome::Fail => b"Failed",
            Outcome::Xfail => b"Expectedly Failed",
            Outcome::Xpass => b"Unexpectedly Passed",
            Outcome::Unsupported => b"Unsupported",
            Outcome::Unresolved => b"Unresolved",
        }
    }

    /// Whether it fails a run.
    pub fn is_failure(self) -> bool
        ensures { result ≡ is_failure self }
    {
        match self {
            Outcome::Fail | Outcome::Xpass | Outcome::Unresolved => true,
            Outcome::Pass | Outcome::Flakypass | Outcome::Xfail | Outcome::Unsupported => false,
        }
    }

    /// Whether it is another one.
    pub fn is_same(self, other: Outcome) -> bool
        ensures { result ≡ is_same self other }
    {
        match (self, other) {
            (Outcome::Pass, Outcome::Pass) => true,
            (Outcome::Flakypass, Outcome::Flakypass) => true,
            (Outcome::Fail, Outcome::Fail) => true,
            (Outcome::Xfail, Outcome::Xfail) => true,
            (Outcome::Xpass, Outcome::Xpass) => true,
            (Outcome::Unsupported, Outcome::Unsupported) => true,
            (Outcome::Unresolved, Outcome::Unresolved) => true,
            _ => false,
        }
    }
}
