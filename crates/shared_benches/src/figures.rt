//! What benches print.

/// What calls on a heap took.
#[derive(Clone, Copy)]
pub struct CallFigures {
    /// The calls that were made.
    pub calls: usize,
    /// The nanoseconds by the clock on the wall.
    pub nanoseconds: u128,
    /// The allocations that were asked for meanwhile.
    pub allocations: u64,
    /// The cycles that came to their end.
    pub cycles: u64,
}

impl CallFigures {
    /// Prints the figures.
    pub fn print(&self, rt: &impl Print) -> Option<()> {
        println!(rt;
            "calls {} nanoseconds {} allocations {} cycles {}",
            self.calls, self.nanoseconds, self.allocations, self.cycles
        )
        .ok()
    }
}

/// What the folding of pieces took.
#[derive(Clone, Copy)]
pub struct FoldFigures {
    /// The pieces that were folded, or handed to replicators.
    pub pieces: u32,
    /// The nanoseconds by the clock on the wall.
    pub nanoseconds: u128,
    /// Those of them in which the thread that hands out the pieces had something to do, which it
    /// does under the lock of a shared heap.
    pub held: u128,
    /// The places of all replicas that were made or came back, which are looked at so that no fold
    /// is left out.
    pub places: u64,
}

impl FoldFigures {
    /// Prints the figures.
    pub fn print(&self, rt: &impl Print) -> Option<()> {
        println!(rt;
            "pieces {} nanoseconds {} held {} places {}",
            self.pieces, self.nanoseconds, self.held, self.places
        )
        .ok()
    }
}

/// What cycles took.
#[derive(Clone, Copy)]
pub struct CycleFigures {
    /// The cycles that came to their end.
    pub cycles: u32,
    /// The nanoseconds by the clock on the wall.
    pub nanoseconds: u128,
    /// Those of them in which an increment, which is under the lock, had something to do.
    pub held: u128,
}

impl CycleFigures {
    /// Prints the figures.
    pub fn print(&self, rt: &impl Print) -> Option<()> {
        println!(rt;
            "cycles {} nanoseconds {} held {}",
            self.cycles, self.nanoseconds, self.held
        )
        .ok()
    }
}
