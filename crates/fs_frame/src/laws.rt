//! What holds of all streams and of all lists of calls. These functions do nothing: each stands for its contract.

ghost use Rattle.std.specs.Prelude.{◌≡◌, ℕ, List, [], ◌∷◌, ◌++◌};
ghost use Rattle.std.specs.List.{filter_map};
ghost use Rattle.fs_frame.specs.Lines.{text_of};
ghost use Rattle.fs_frame.specs.Headers.{header_of, headers_of};
ghost use Rattle.fs_frame.specs.Block.{IsHead, IsBlock, line_of, body_of};
ghost use Rattle.fs_frame.specs.Blocks.{Splits, blocks_of, rest_of};
ghost use Rattle.fs_frame.specs.declared.next.Next.{Next};
ghost use Rattle.fs_frame.specs.Calls.{Call, asked, blocks_in, stream_of};
ghost use Rattle.fs_frame.specs.Calls.{AlwaysAnswered, AreAnswered, ComeFirst, Follows, answer_for};
ghost use Rattle.fs_frame.specs.declared.fault.Fault.{Fault};

/// A stream falls into blocks and a rest in exactly one way. The line of a head is the text of its command line, and
/// its headers are those of its header lines; a block has the line and the headers of its head, and its own body.
pub fn one_reading()
    ensures some { (stream : List ℕ) → Splits stream (blocks_of stream) (rest_of stream) }
    ensures only { (stream rest : List ℕ) (blocks : List (List ℕ)) →
        Splits stream blocks rest → (blocks ≡ blocks_of stream) × (rest ≡ rest_of stream) }
    ensures line { (bytes : List ℕ) (head : IsHead bytes) → line_of bytes ≡ text_of head.command }
    ensures headers { (bytes : List ℕ) (head : IsHead bytes) →
        headers_of bytes ≡ filter_map (λ line. header_of (text_of line)) head.headers }
    ensures parts { (bytes : List ℕ) (block : IsBlock bytes) → (line_of bytes ≡ line_of block.head)
        × (headers_of bytes ≡ headers_of block.head) × (body_of bytes ≡ block.body) }
{}

/// In whatever pieces a stream is fed, and whenever blocks are asked for in between, the blocks that were handed
/// out are the first of the stream, and each answer is the one that follows for the stream so far.
pub fn however_cut()
    ensures blocks { (calls : List Call) → AreAnswered calls → ComeFirst (blocks_in calls) (stream_of calls) }
    ensures answer { (calls : List Call) (next : Next) →
        AreAnswered (calls ++ asked next ∷ []) → Follows (blocks_in calls) (stream_of calls) next }
{}

/// Once the buffer answered `TooLong` or `BadLength`, each later answer is the same, whatever is fed in between.
pub fn faults_stay()
    ensures { (calls further : List Call) (fault : Fault) →
        AreAnswered (calls ++ asked (answer_for fault) ∷ further) → AlwaysAnswered (answer_for fault) further }
{}
