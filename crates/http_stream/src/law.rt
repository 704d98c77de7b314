//! Laws of streams: the bytes determine the requests, and repeats act once.

ghost use Rattle.std.specs.Prelude.{◌≡◌, ◌⊎◌, ℕ, List, false};
ghost use Rattle.http_stream.specs.Cut.{Portion, IsPortion, IsCut, EndsInside};
ghost use Rattle.http_stream.specs.Repeats.{Repeats, LeavesState, NoRepeatEnds, IsCutWithout, without_repeats, after_all};
ghost use Rattle.http_stream.specs.Stream.{Rule};
ghost use Rattle.http_stream.specs.Unique.{IsOpen, IsClear, IsOnePortion, NoneStarved, is_starved};

use crate::serving::Handler;

/// A law: outside the one open case of the head grammar, a stream starts with exactly one portion
/// or ends inside a request, unless memory runs out. So the bytes alone determine the cuts of a
/// stream without such requests.
pub fn bytes_decide()
    ensures one { (input : List ℕ) (p q : Portion) (l m : List ℕ)
        → IsPortion input p l → IsPortion input q m → is_starved p ≡ false → is_starved q ≡ false
        → IsOpen input ⊎ IsOnePortion p l q m }
    ensures not_both { (input : List ℕ) (p : Portion) (l : List ℕ)
        → EndsInside input → IsPortion input p l → is_starved p ≡ false → IsOpen input }
    // So, outside of the open case, the sizes of reads don't decide where a request ends.
    ensures one_cut { (input : List ℕ) (ps qs : List Portion)
        → IsCut input ps → IsCut input qs → NoneStarved ps → NoneStarved qs
        → IsClear input → ps ≡ qs }
{}

/// A law, for every rule of a handler's states under which repeats leave the state unchanged: if no
/// portion is marked and no repeat ends its connection, removing the repeats' bytes keeps the final
/// state.
pub fn repeats_act_once<A: Handler>()
    ensures left_out { (rule : Rule A.State) (again : Repeats A.State) (s : A.State)
        → (input : List ℕ) (ps : List Portion) → IsCut input ps → NoRepeatEnds rule again s ps
        → (fewer : List ℕ) × IsCutWithout rule again s input ps fewer }
    ensures cut { (rule : Rule A.State) (again : Repeats A.State) (s : A.State)
        → (input fewer : List ℕ) (ps : List Portion) → IsCutWithout rule again s input ps fewer
        → IsCut fewer (without_repeats rule again s ps) }
    ensures list { (rule : Rule A.State) (again : Repeats A.State) → LeavesState rule again
        → (s : A.State) (ps : List Portion)
        → after_all rule s ps ≡ after_all rule s (without_repeats rule again s ps) }
{}
