//! What is asked of the program.
ghost use Rattle.std.specs.Prelude.{◌≡◌, ◌≢◌, ℕ, MatchOption};
ghost use Rattle.shredmeasure.specs.Orders.{AreWords, Asks, Writes, first_line, order_word};

/// Where the groups of a stage run: on the caller's thread, on threads that are started for it, on workers that are kept and look
/// for a job before they sleep, or on such that sleep at once.
#[derive(Clone, Copy)]
pub(crate) enum Place {
    OnCaller,
    OnThreads,
    OnKept,
    OnSleeping,
}

/// What is done with the systems: they are dispatched, or a plan of random ones is built.
#[derive(Clone, Copy)]
pub(crate) enum Mode {
    Dispatching(Place),
    Planning,
}

/// So many systems, dispatched or planned so often. In each run one waits for so many pauses of the processor.
#[derive(Clone, Copy)]
pub(crate) struct Order {
    pub(crate) mode: Mode,
    pub(crate) systems: u64,
    pub(crate) times: u64,
    pub(crate) work: u64,
}

/// The most systems that are made.
const MOST_SYSTEMS: u64 = 10_000;

impl Mode {
    /// The mode that a word stands for, if it stands for one.
    fn of_word(word: &str) -> Option<Mode>
        ensures { MatchOption result ((mode : Mode) → word.now ≢ order_word mode) (λ mode. word.now ≡ order_word mode) }
    {
        match word {
            "seq" => Some(Mode::Dispatching(Place::OnCaller)),
            "par" => Some(Mode::Dispatching(Place::OnThreads)),
            "kept" => Some(Mode::Dispatching(Place::OnKept)),
            "asleep" => Some(Mode::Dispatching(Place::OnSleeping)),
            "plan" => Some(Mode::Planning),
            _ => None,
        }
    }
}

// What stands before the first line feed.
fn first_line_of(text: &str) -> &str
    ensures { result.now ≡ first_line text.now }
{
    match text.split_once('\n') {
        Some((line, _)) => line,
        None => text,
    }
}

// The number that a word writes, if it writes one of 64 bits.
fn number_of(word: &str) -> Option<u64>
    ensures { MatchOption result ((number : ℕ) → Writes word.now number → ⊥) (λ number. Writes word.now number) }
{
    word.parse::<u64>().ok()
}

impl Order {
    /// The order of these words, if they are one's.
    fn of_words(mode: &str, systems: &str, times: &str, work: &str) -> Option<Order>
        ensures { MatchOption result ((order : Order) → AreWords mode.now systems.now times.now work.now order → ⊥) (λ order. AreWords mode.now systems.now times.now work.now order) }
    {
        let order = Order {
            mode: Mode::of_word(mode)?,
            systems: number_of(systems)?,
            times: number_of(times)?,
            work: number_of(work)?,
        };
        if order.systems > MOST_SYSTEMS {
            return None;
        }
        Some(order)
    }

    /// The order that a line gives, if it gives one.
    pub(crate) fn of_line(line: &[u8]) -> Option<Order>
        ensures { MatchOption result ((order : Order) → Asks line.now order → ⊥) (λ order. Asks line.now order) }
    {
        let text = first_line_of(str::from_utf8(line).ok()?);
        let (mode, numbers) = text.split_once(' ')?;
        let (systems, others) = numbers.split_once(' ')?;
        let (times, work) = others.split_once(' ')?;
        Order::of_words(mode, systems, times, work)
    }
}
