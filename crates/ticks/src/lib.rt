// Times as tuple structs, one for each clock, so that a 45 kHz time cannot stand where a 90 kHz time is meant.
#![tactic(auto)]

ghost use Rattle.std.specs.Prelude.{◌≡◌, ◌+◌, ◌<◌, ◌^◌};
ghost use Rattle.format.specs.Ticks.{doubled, less45, less90, later90};
ghost use Rattle.ticks.specs.Times.{as45, as90, in_ticks, IsSum};

// A time in 45 kHz ticks, as the file's STC times.
#[derive(Clone, Copy, PartialEq, Eq, PartialOrd, Ord)]
pub struct Ticks45(pub u32);

// A time in 90 kHz ticks.
#[derive(Clone, Copy, PartialEq, Eq, PartialOrd, Ord)]
pub struct Ticks90(pub u64);

// A time in 90 kHz ticks of 32 bits, which entry lookups are given.
#[derive(Clone, Copy, PartialEq, Eq, PartialOrd, Ord)]
pub struct Pts90(pub u32);

impl Ticks45 {
    // The doubling, the only way from 45 kHz ticks to 90 kHz ticks.
    pub fn doubled(self) -> Ticks90
        ensures { as90 result ≡ doubled (as45 self) }
    {
        Ticks90(2 * u64::from(self.0))
    }

    // One time less another, not below 0. Each clock has its own, of one line: a trait would add its law and two impls.
    pub fn less(self, other: Ticks45) -> Ticks45
        ensures { as45 result ≡ less45 (as45 self) (as45 other) }
    {
        Ticks45(self.0.saturating_sub(other.0))
    }
}

impl Ticks90 {
    // One time less another, not below 0. Each clock has its own, of one line: a trait would add its law and two impls.
    pub fn less(self, other: Ticks90) -> Ticks90
        ensures { as90 result ≡ less90 (as90 self) (as90 other) }
    {
        Ticks90(self.0.saturating_sub(other.0))
    }

    // The later of two times: the library's `max`, in a method of its own, whose promise is told by the definition.
    pub fn later(self, other: Ticks90) -> Ticks90
        ensures { as90 result ≡ later90 (as90 self) (as90 other) }
    {
        self.max(other)
    }
}

// Times added up, as whole minutes and the 90 kHz ticks below a minute, so that the sum may pass 64 bits.
#[derive(Clone, Copy)]
pub struct Minutes {
    pub whole: u64,
    pub rest: Ticks90,
}

impl Minutes {
    // No time.
    pub fn none() -> Minutes
        ensures { IsSum result 0 }
    {
        Minutes {
            whole: 0,
            rest: Ticks90(0),
        }
    }

    // A time more, its minutes and its ticks added by themselves; the ticks may make up a minute, which is carried.
    pub fn plus(self, time: Ticks90) -> Minutes
        requires { ((as90 self.rest).ticks < 5400000) × (self.whole < 2 ^ 63) }
        ensures { IsSum result (in_ticks self + (as90 time).ticks) }
    {
        let whole = self.whole + time.0 / 5400000;
        let ticks = self.rest.0 + time.0 % 5400000;
        if ticks < 5400000 {
            return Minutes {
                whole,
                rest: Ticks90(ticks),
            };
        }
        Minutes {
            whole: whole + 1,
            rest: Ticks90(ticks - 5400000),
        }
    }
}
