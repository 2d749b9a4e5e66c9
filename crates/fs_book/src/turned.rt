//! States that take entries one at a time.

ghost use Rattle.std.specs.Prelude.{◌≡◌, ℕ, List, [], ◌∷◌, ◌++◌, length, Option, MatchResult};
ghost use mathlib.Core.List.{IsPrefix};
ghost use Rattle.fs_book.specs.Opened.{OpensAt};

/// A state that takes entries one at a time, and keeps a journal of those that it took.
///
/// An entry may open a number at its place in the journal, as that of a connection, and may name one. No two places
/// open one number.
pub trait Turned: Drop {
    /// What the state started from. No turn changes it.
    type Start;

    /// What is submitted.
    type Entry;

    /// What the journal keeps of an entry.
    type Logged;

    /// What an entry that was taken is answered.
    type Answer;

    /// Why an entry was not taken.
    type Refusal;

    // What a state started from, and the entries that it took since.
    ghost start: { Self → Self.Start };

    ghost journal: { Self → List Self.Logged };

    // What the journal keeps of an entry.
    ghost logged: { Self.Entry → Self.Logged };

    // The entry may be submitted after these.
    ghost fits: { Self.Start → List Self.Logged → Self.Entry → Type 0 };

    // After these the entry is taken, with this answer.
    ghost answers: { Self.Start → List Self.Logged → Self.Entry → Self.Answer → Type 0 };

    // After these the entry is not taken, for this reason.
    ghost refuses: { Self.Start → List Self.Logged → Self.Entry → Self.Refusal → Type 0 };

    // The number that the entry opens after these.
    ghost opens: { Self.Start → List Self.Logged → Self.Logged → Option ℕ };

    // The number that the entry names.
    ghost names: { Self.Logged → Option ℕ };

    /// Takes the entry into the journal, and answers it; or refuses it, and changes nothing.
    fn turn(&mut self, entry: Self::Entry) -> Result<Self::Answer, Self::Refusal>
        requires { fits (start self.old) (journal self.old) entry }
        ensures start { start self.new ≡ start self.old }
        ensures cases { MatchResult result
            (λ answer. (journal self.new ≡ journal self.old ++ logged entry ∷ [])
            × answers (start self.old) (journal self.old) entry answer)
            (λ refusal. (journal self.new ≡ journal self.old)
            × refuses (start self.old) (journal self.old) entry refusal) };

    /// The place in the journal of the entry that is taken next.
    fn place(&self) -> u64
        ensures { result ≡ length (journal self.now) };

    // No two places of a journal open one number.
    ghost opens_once: { (origin : Self.Start) (log : List Self.Logged) (p q number : ℕ)
        → OpensAt opens origin log p number → OpensAt opens origin log q number → p ≡ q };

    // What may be submitted may be submitted later too.
    ghost fits_longer: { (origin : Self.Start) (xs ys : List Self.Logged) (entry : Self.Entry)
        → IsPrefix xs ys → fits origin xs entry → fits origin ys entry };
}

/// A question to a state.
pub trait Ask<M: Turned> {
    type Answer;

    // At a state that started so and took these entries, this is an answer.
    ghost tells: { Self → M.Start → List M.Logged → Self.Answer → Type 0 };

    fn ask(&self, state: &M) -> Self::Answer
        ensures { tells self.now (M.start state.now) (M.journal state.now) result };
}

/// What a submitted entry got: its place in the journal, and its answer.
#[derive(Debug, Drop)]
pub struct Receipt<A> {
    pub place: u64,
    pub answer: A,
}
