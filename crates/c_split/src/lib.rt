// A long advertisement split for C: the checker of plans, our planner, and where the options of a message are. A planner of the site's own, most likely
// written in C, asks the checker.
#![tactic(auto)]

ghost use Rattle.std.specs.Prelude.{◌≡◌};
ghost use Rattle.output.specs.Output.{leaves};
ghost use Rattle.ndp_options.specs.Editions.{edition_of};
ghost use Rattle.split_plan.specs.Plan.{plan_of};
ghost use Rattle.advertisement_split.specs.Split.{sizes_of, own_bytes, check_of, plan_for, place_of};
ghost use Rattle.c_split.specs.Split.{checked_for, planned_for, part_for};

use ndp_options::Edition;
use refusal::Refusal;

#[repr(C)]
#[derive(Clone, Copy)]
pub struct Checked {
    pub answer: u32,
    pub refusal: u32,
    pub value: [u64; 5],
}

#[repr(C)]
#[derive(Clone, Copy)]
pub struct Planned {
    pub answer: u32,
    pub refusal: u32,
    pub value: [u64; 5],
    pub messages: usize,
}

// Where the options of a message are in the list.
#[repr(C)]
#[derive(Clone, Copy)]
pub struct Part {
    pub answer: u32,
    pub refusal: u32,
    pub value: [u64; 5],
    pub at: usize,
    pub length: usize,
}

impl Checked {
    ghost use Rattle.std.specs.Prelude.{◌≡◌};
    ghost use Rattle.refusal.specs.Paper.{refusal};
    ghost use Rattle.c_answer.specs.Answer.{none};
    ghost use Rattle.c_split.specs.Split.{checked, refused_for};

    // What came, and no refusal beside it.
    #[inline(always)]
    fn given(answer: u32) -> Checked
        ensures { result ≡ checked answer 0 none }
    {
        Checked {
            answer,
            refusal: 0,
            value: [0; 5],
        }
    }

    // The refusal: its number and its values.
    #[inline(always)]
    fn refused(why: Refusal) -> Checked
        ensures { result ≡ refused_for (refusal why) }
    {
        let n = why.numbers();
        let value = n.values;
        Checked {
            answer: c_answer::REFUSED,
            refusal: u32::from(n.number),
            value,
        }
    }
}

impl From<Result<bool, Refusal>> for Checked {
    ghost use Rattle.std.specs.Prelude.{◌≡◌};
    ghost use Rattle.advertisement_split.specs.Told.{checked_told};
    ghost use Rattle.c_split.specs.Split.{checked_for};

    ghost from_gives = { λ answer x. x ≡ checked_for (checked_told answer) };

    #[inline(always)]
    #[tactic(auto, unfolding(crate::specs::Split::checked_for))]
    fn from(answer: Result<bool, Refusal>) -> Checked {
        match answer {
            Ok(true) => Checked::given(c_answer::ACCEPTED),
            Ok(false) => Checked::given(c_answer::NOT_ACCEPTED),
            Err(why) => Checked::refused(why),
        }
    }
}

impl From<Result<usize, Refusal>> for Planned {
    ghost use Rattle.std.specs.Prelude.{◌≡◌};
    ghost use Rattle.output.specs.Output.{written_told};
    ghost use Rattle.c_split.specs.Split.{planned_for};

    ghost from_gives = { λ answer x. x ≡ planned_for (written_told answer) };

    #[inline(always)]
    #[tactic(auto, unfolding(crate::specs::Split::planned_for))]
    fn from(answer: Result<usize, Refusal>) -> Planned {
        let (came, messages) = match answer {
            Ok(n) => (Checked::given(c_answer::PLANNED), n),
            Err(why) => (Checked::refused(why), 0),
        };
        let value = came.value;
        Planned {
            answer: came.answer,
            refusal: came.refusal,
            value,
            messages,
        }
    }
}

impl From<Result<Option<(usize, usize)>, Refusal>> for Part {
    ghost use Rattle.std.specs.Prelude.{◌≡◌};
    ghost use Rattle.advertisement_split.specs.Told.{message_told};
    ghost use Rattle.c_split.specs.Split.{part_for};

    ghost from_gives = { λ answer x. x ≡ part_for (message_told answer) };

    #[inline(always)]
    #[tactic(auto, unfolding(crate::specs::Split::part_for))]
    fn from(answer: Result<Option<(usize, usize)>, Refusal>) -> Part {
        let (came, at, length) = match answer {
            Ok(Some((at, length))) => (Checked::given(c_answer::ACCEPTED), at, length),
            Ok(None) => (Checked::given(c_answer::NOT_ACCEPTED), 0, 0),
            Err(why) => (Checked::refused(why), 0, 0),
        };
        let value = came.value;
        Part {
            answer: came.answer,
            refusal: came.refusal,
            value,
            at,
            length,
        }
    }
}

#[unsafe(no_mangle)]
pub extern "C" fn brothladder_check_plan(
    options: &[u8],
    limit: usize,
    plan: &[u32],
    edition: u32,
) -> Checked
    ensures { result ≡ checked_for (check_of (edition_of edition) limit options.now plan.now) }
{
    advertisement_split::check_plan(options, limit, plan, Edition::of(edition)).into()
}

#[unsafe(no_mangle)]
pub extern "C" fn brothladder_plan(
    options: &[u8],
    limit: usize,
    plan: &mut [u32],
    edition: u32,
) -> Planned
    ensures answers { result ≡ planned_for (plan_for (edition_of edition) limit options.now plan.old) }
    ensures lent { plan.new ≡ leaves (plan_for (edition_of edition) limit options.now plan.old) plan.old 0 (plan_of own_bytes limit (sizes_of (edition_of edition) options.now)) }
{
    advertisement_split::make_plan(options, limit, plan, Edition::of(edition)).into()
}

#[unsafe(no_mangle)]
pub extern "C" fn brothladder_plan_message(
    options: &[u8],
    limit: usize,
    plan: &[u32],
    i: usize,
    edition: u32,
) -> Part
    ensures { result ≡ part_for (place_of (edition_of edition) limit options.now plan.now i) }
{
    advertisement_split::message_place(options, limit, plan, i, Edition::of(edition)).into()
}
