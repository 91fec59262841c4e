//! The costs of steps in a recording.

ghost use Rattle.std.specs.Prelude.{ℕ, ◌≡◌, ◌+◌, ◌^◌, ◌<◌, ◌≤◌, IfSome, length};
ghost use Rattle.irig_explaining.specs.Distances.{gone};
ghost use Rattle.irig_explaining.specs.Priced.{ahead, counted, is_next, least, more_by, on_by, price};
ghost use Rattle.irig_explaining.specs.Priced.{price_by, role_at};
ghost use Rattle.irig_explaining.specs.{Classes.class_at};
ghost use Rattle.irig_explaining.specs.declared.role.Role.{Role};
ghost use Rattle.irig_explaining.specs.declared.claim.Kind.TheVariants.{Jump};

use crate::claim::{Claim, Kind};
use crate::costs::Costs;
use crate::division::rest;
use crate::prices::Prices;
use crate::reach::Reach;
use crate::remote::Remote;
use crate::role::{Role, role_of};
use crate::table::{CANNOT, FAR, JUMP, STEP};

/// How many elements one is after another, of a frame of some elements.
pub(crate) fn ahead(size: u64, element: u64, other: u64) -> u64
    requires some { 0 < size }
    requires few { size ≤ 2 ^ 31 }
    ensures exact { result ≡ ahead size element other }
    ensures within { result < size }
{
    rest(rest(other, size) + size - rest(element, size), size)
}

/// The number of elements that leads as far ahead, if it is at most five from what the clock says.
pub(crate) fn counted(size: u64, ahead: u64, gone: u64) -> Option<u64>
    requires some { 0 < size }
    requires few { size ≤ 2 ^ 31 }
    requires within { ahead < size }
    requires short { gone ≤ 2 ^ 49 }
    ensures exact { result ≡ counted size ahead gone }
    ensures near { IfSome result (λ count. (0 < gone → 0 < count) × (count ≤ gone + 5)) }
{
    let more = rest(ahead + size - rest(gone, size), size);
    if more < 6 {
        return Some(gone + more);
    }
    let fewer = size - more;
    if fewer < gone.min(6) {
        return Some(gone - fewer);
    }
    None
}

impl<'a> Costs for Prices<'a> {
    ghost price = { price };

    ghost from_class = { class_at };

    ghost to_class = { λ p f. 0 };

    fn price(&self, from: Claim, to: Claim) -> u32 {
        if to.rise <= from.rise || self.pulses.len() <= to.rise as usize {
            return 0;
        }
        self.price_by(from, to).min(CANNOT) as u32
    }

    fn least(&self, rise: usize, later: usize, enough: u64) -> u32 {
        if later <= rise || self.pulses.len() <= later {
            return 0;
        }
        self.passing_up_to(rise, later, enough).min(CANNOT) as u32
    }

    fn remote_from(&self, later: usize) -> Remote {
        if later < 5 || self.pulses.len() <= later {
            return Remote { rise: 0, least: 0 };
        }
        let rise = self.far_before(later);
        Remote {
            rise,
            least: FAR as u32,
        }
    }

    fn remote_to(&self, rise: usize, count: usize) -> Remote {
        if self.pulses.len() < count || count <= rise {
            return Remote { rise: 0, least: 0 };
        }
        let rise = self.far_after(rise);
        Remote {
            rise,
            least: FAR as u32,
        }
    }

    fn least_by(&self, rise: usize, later: usize, kind: Kind) -> u32 {
        if later <= rise || self.pulses.len() <= later {
            return 0;
        }
        (more_by(kind) + self.passing(rise, later)).min(CANNOT) as u32
    }

    fn from_class(&self, element: usize) -> usize {
        match self.role_at(element) {
            Role::Unused => 0,
            Role::Bit => 1,
            Role::Position => 2,
        }
    }

    fn to_class(&self, _element: usize) -> usize {
        0
    }

    fn from_classes(&self, _states: u32) -> usize {
        3
    }

    fn to_classes(&self, _states: u32) -> usize {
        1
    }

    fn jump_to(&self, from: Claim, later: usize, _class: usize) -> u32 {
        self.jump(
            self.role_at(from.element as usize),
            from.rise as usize,
            later,
        )
    }

    fn jump_from(&self, rise: usize, class: usize, to: Claim) -> u32 {
        self.jump(role_of(class), rise, to.rise as usize)
    }

    fn reach_from(&self, from: Claim, later: usize) -> Reach {
        let rise = from.rise as usize;
        if later <= rise || self.pulses.len() <= later {
            return Reach::all();
        }
        let size = self.roles.len() as u64;
        let gone = self.gone(rise, later);
        Reach {
            size,
            turned: false,
            origin: size - from.element as u64 % size,
            turn: size - gone % size,
            spare: self.spare(rise, later, gone),
        }
    }

    fn reach_to(&self, rise: usize, to: Claim) -> Reach {
        let later = to.rise as usize;
        if later <= rise || self.pulses.len() <= later {
            return Reach::all();
        }
        let size = self.roles.len() as u64;
        let gone = self.gone(rise, later);
        Reach {
            size,
            turned: true,
            origin: size + to.element as u64 % size,
            turn: size - gone % size,
            spare: self.spare(rise, later, gone),
        }
    }

    fn most_from(&self, rise: usize, this: usize, class: usize) -> u32 {
        if self.pulses.len() <= rise {
            return 0;
        }
        JUMP as u32 + self.dearer(rise, self.role_at(this), role_of(class)) as u32
    }

    fn most_to(&self, _rise: usize, _this: usize, _class: usize) -> u32 {
        JUMP as u32
    }
}

/// What a step of a kind costs more than what it passes over.
fn more_by(kind: Kind) -> u64
    ensures exact { result ≡ more_by kind }
    ensures small { result ≤ 256 }
{
    match kind {
        Kind::Next => 0,
        Kind::Step => STEP,
        Kind::Jump => JUMP,
    }
}

impl<'a> Prices<'a> {
    /// What a jump costs from a rise and an element of a role to another rise.
    fn jump(&self, role: Role, rise: usize, later: usize) -> u32
        ensures { (e f : ℕ) → role_at self.now e ≡ role
            → price self.now rise e later f Jump ≡ result }
    {
        if later <= rise || self.pulses.len() <= later {
            return 0;
        }
        (JUMP + self.least(role, rise, later)).min(CANNOT) as u32
    }

    /// What a step costs that goes on over some elements; the clock can say another number.
    fn on_by(&self, role: Role, rise: usize, later: usize, count: Option<u64>, said: u64) -> u64
        requires said { said ≡ gone self.now rise later }
        requires small { said ≤ 2 ^ 49 }
        requires order { rise < later }
        requires later { later < length self.now.pulses.now }
        requires near { IfSome count (λ n. (0 < n) × (n ≤ gone self.now rise later + 5)) }
        ensures exact { result ≡ on_by self.now role rise later count }
        ensures small { result < 2 ^ 60 }
    {
        match count {
            Some(count) => self.on(role, rise, later, count, said),
            None => CANNOT,
        }
    }

    /// What a step of its kind costs.
    fn price_by(&self, from: Claim, to: Claim) -> u64
        requires order { from.rise < to.rise }
        requires later { to.rise < length self.now.pulses.now }
        ensures { result
            ≡ price_by self.now from.rise from.element to.rise to.element to.kind }
    {
        let role = self.role_at(from.element as usize);
        let (rise, later) = (from.rise as usize, to.rise as usize);
        let gone = self.gone(rise, later);
        let size = self.roles.len() as u64;
        let ahead = ahead(size, from.element as u64, to.element as u64);
        match to.kind {
            Kind::Next => self.on_by(role, rise, later, counted(size, ahead, gone), gone),
            Kind::Step if is_next(size, ahead, gone) => STEP + self.least(role, rise, later),
            Kind::Step => CANNOT,
            Kind::Jump => JUMP + self.least(role, rise, later),
        }
    }
}

/// Whether a step in time leads that far ahead: to the next element, or to the one that the clock
/// says.
fn is_next(size: u64, ahead: u64, gone: u64) -> bool
    requires { 0 < size }
    ensures { result ≡ is_next size ahead gone }
{
    ahead == rest(1, size) || ahead == rest(gone, size)
}
