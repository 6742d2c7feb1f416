//! What a shared run is asked for, and the configuration that it gives.

ghost use Rattle.std.specs.Prelude.{◌≡◌};
ghost use Rattle.rh_shared_trace.specs.Options.{shared_config_of};

use rh_shared::SharedConfig;
use rh_syntax::Header;

/// The replicators that get the same piece.
const COPIES: u32 = 1;

/// The fields and entries that one increment deals.
const MOST: u32 = 16;

/// The calls that the history has room for.
pub const HISTORY: u32 = 65_536;

/// The increments without progress after which lost pieces are dealt again.
const PATIENCE: u32 = 1_000;

/// What a shared run is asked for beside its trace.
#[derive(Clone, Copy, Debug, PartialEq, Eq)]
pub struct RunOptions {
    /// The replicators, each in a thread of its own: 0 to 8. Without one pieces are folded under
    /// the lock.
    pub replicators: u32,
    /// The idle words that each increment in a cycle adds, a unit of work each.
    pub idle: u32,
}

/// The configuration of a shared run: a cycle begins where fewer than half of the words, rounded
/// down, are free.
pub fn shared_config_of(header: Header, options: RunOptions) -> SharedConfig
    ensures { result ≡ shared_config_of header options }
{
    SharedConfig {
        replicators: options.replicators,
        copies: COPIES,
        most: MOST,
        mark: header.words / 2,
        history: HISTORY,
        patience: PATIENCE,
        idle: options.idle,
    }
}
