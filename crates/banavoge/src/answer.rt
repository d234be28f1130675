// Answers as one number.
ghost use Rattle.std.specs.Prelude.{◌≡◌, ◌≤◌, pos};
ghost use Rattle.banavoge_laws.specs.Answers.{refusal_code, written_code, Counted};
ghost use Rattle.banavoge_laws.specs.Nearest.{done_code, kept_code};
ghost use Rattle.banavoge_laws.specs.Rooms.{done_or};

use refusal::Refusal;

// Minus the refusal's number.
#[tactic(auto, unfolding(banavoge_laws::specs::Answers::refusal_code))]
pub(crate) fn refused(why: Refusal) -> i32
    ensures { result ≡ refusal_code why }
{
    -i32::from(why.number())
}

// A byte count, as C has it: no call writes more than 5,120 bytes.
pub(crate) fn count(bytes: usize) -> i32
    requires { bytes ≤ 5120 }
    ensures { result ≡ pos bytes }
{
    bytes as i32
}

// The byte count, or minus the refusal's number.
#[tactic(auto, unfolding(banavoge_laws::specs::Answers::written_code, banavoge_laws::specs::Answers::Counted))]
pub(crate) fn written(answer: Result<usize, Refusal>) -> i32
    requires { Counted answer }
    ensures { result ≡ written_code answer }
{
    answer.map_or_else(refused, count)
}

// 0, or minus the refusal's number.
#[tactic(auto, unfolding(banavoge_laws::specs::Nearest::done_code))]
pub(crate) fn done(answer: Result<(), Refusal>) -> i32
    ensures { result ≡ done_code answer }
{
    answer.map_or_else(refused, |()| 0)
}

// 1 kept, 0 not kept, or minus the refusal's number.
#[tactic(auto, unfolding(banavoge_laws::specs::Nearest::kept_code))]
pub(crate) fn kept(answer: Result<bool, Refusal>) -> i32
    ensures { result ≡ kept_code answer }
{
    answer.map_or_else(refused, i32::from)
}

// 0 where it is done, or else minus the refusal's number.
#[tactic(auto, unfolding(banavoge_laws::specs::Rooms::done_or))]
pub(crate) fn done_or(why: Refusal, done: bool) -> i32
    ensures { result ≡ done_or why done }
{
    if done { 0 } else { refused(why) }
}
