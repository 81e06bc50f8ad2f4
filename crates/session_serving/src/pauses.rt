// When what broke comes up again, over moments alone.
ghost use Rattle.std.specs.Prelude.{◌≡◌, length};
ghost use Rattle.deploy_state.specs.States.{idle_device};
ghost use Rattle.components.specs.Answers.{broken_count};
ghost use Rattle.components.specs.Components.{is_settled};
ghost use Rattle.session_serving.specs.Pauses.{began, documented, is_due, is_long, lengthened, looked, up_from, with_look};

use components::Supervise;
use deploy_state::Idle;
use gate_log::Journal;
use session_steady::Settled;

/// The pause after a break, in milliseconds, and again after a document or a long time without a failure.
const FIRST_PAUSE_MS: u64 = 10_000;

/// The longest pause.
const LONGEST_PAUSE_MS: u64 = 320_000;

/// So long all are up without a failure before the pause is the first one again.
const LONG_MS: u64 = 320_000;

/// What is carried from turn to turn of what broke. Moments and lengths of time are milliseconds.
#[derive(Clone, Copy, Debug, Drop, PartialEq, Eq)]
pub struct Pause {
    /// How many deployments were closed at the last look: where there are others, one was driven since.
    pub closed: usize,
    /// How many components were BROKEN then, and not to be stopped.
    pub broken: usize,
    /// The moment of the look that found the last of them.
    pub broke: u64,
    /// So long after that moment they come up again.
    pub length: u64,
    /// Since when all components are up and none failed.
    pub up_since: Option<u64>,
}

/// What a look finds.
#[derive(Clone, Copy, Debug, Drop, PartialEq, Eq)]
pub struct Look {
    pub now: u64,
    /// How many deployments are closed.
    pub closed: usize,
    /// How many components are BROKEN, and not to be stopped.
    pub broken: usize,
    /// Whether all components are up.
    pub up: bool,
    /// Whether one failed since the last look.
    pub failed: bool,
}

/// At the beginning, when nothing was looked at.
pub(crate) fn begin() -> Pause
    ensures { result ≡ began }
{
    Pause {
        closed: 0,
        broken: 0,
        broke: 0,
        length: FIRST_PAUSE_MS,
        up_since: None,
    }
}

/// Whether what broke comes up again at this moment.
pub(crate) fn is_due(pause: Pause, now: u64) -> bool
    ensures { result ≡ is_due pause now }
{
    pause.broken > 0 && now.saturating_sub(pause.broke) >= pause.length
}

/// Since when all are up and none failed.
fn up_from(since: Option<u64>, look: Look, driven: bool) -> Option<u64>
    ensures { result ≡ up_from since look driven }
{
    if !look.up {
        return None;
    }
    match since {
        Some(moment) => Some(if look.failed || driven {
            look.now
        } else {
            moment
        }),
        None => Some(look.now),
    }
}

/// Whether it is long that all are up and none failed.
fn is_long(since: Option<u64>, now: u64) -> bool
    ensures { result ≡ is_long since now }
{
    match since {
        Some(moment) => now.saturating_sub(moment) >= LONG_MS,
        None => false,
    }
}

/// After a look. Those that were BROKEN at the last one count no more where a deployment was driven since.
fn with_look(pause: Pause, look: Look) -> Pause
    ensures { result ≡ with_look pause look }
{
    let driven = pause.closed != look.closed;
    let before = if driven { 0 } else { pause.broken };
    let up_since = up_from(pause.up_since, look, driven);
    let long = is_long(up_since, look.now);
    Pause {
        closed: look.closed,
        broken: look.broken,
        broke: if before < look.broken {
            look.now
        } else {
            pause.broke
        },
        length: if long { FIRST_PAUSE_MS } else { pause.length },
        up_since,
    }
}

/// After every act was taken.
pub(crate) fn take_look<J: Journal + Drop, S: Supervise>(
    pause: Pause,
    idle: &Idle<J>,
    settled: Settled,
    supervisor: &S,
) -> Pause
    ensures { result ≡ looked pause settled (idle_device idle.now) (S.world supervisor.now) }
{
    let look = Look {
        now: settled.now,
        closed: idle.device().closed.len(),
        broken: supervisor.broken_count(),
        up: supervisor.settled(),
        failed: settled.failed,
    };
    with_look(pause, look)
}

/// After what broke came up again: the next pause is twice as long.
pub(crate) fn lengthened(pause: Pause) -> Pause
    ensures { result ≡ lengthened pause }
{
    Pause {
        broken: 0,
        length: if pause.length < LONGEST_PAUSE_MS / 2 {
            pause.length * 2
        } else {
            LONGEST_PAUSE_MS
        },
        ..pause
    }
}

/// After a document, a refused one too.
pub(crate) fn documented(pause: Pause) -> Pause
    ensures { result ≡ documented pause }
{
    Pause {
        length: FIRST_PAUSE_MS,
        ..pause
    }
}
