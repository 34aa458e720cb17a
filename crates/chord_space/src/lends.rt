//! Desks are lent and come back.
ghost use Rattle.std.specs.Prelude.{◌≡◌, ◌<◌, true, [], None};
ghost use Rattle.chord_rule.specs.Kinds.{newcomer, lent_one, united};
ghost use Rattle.chord_rule.specs.Coming.{IsPlace};
ghost use Rattle.chord_space.specs.Desks.{view, space_code, space_limits, program_of, IsDeskOf, IsSameDesk};

use crate::plays::{FindPlace, Governed, Lend, Unite};
use crate::space::{Desk, Space};
use chord_code::carry::Carry;
use std::marker::Brand;

impl<P: Carry> Space<P> {
    /// A new desk, which keeps nothing and has no duty. Only the desk that `make` gave lends, at most 65,535 times.
    pub fn split(&self, desk: &mut Desk<P>) -> Desk<P>
        requires desk { IsDeskOf self.now desk.old }
        requires first { ((view desk.old).first ≡ true) × ((view desk.old).splits < 65535) }
        ensures desk { IsSameDesk desk.old desk.new × (view desk.new ≡ lent_one (view desk.old)) }
        ensures lent { IsDeskOf self.now result × (view result ≡ newcomer) }
    {
        let seat = self.table.shared.split_seat::<Lend>(&mut desk.seat);
        Desk { seat, above: 0 }
    }

    // A load of the counter, for what it tells.
    fn step_find_place<J: Governed>(&self, desk: &mut Desk<P>)
        requires governed { (J.parts ≡ space_code self.now) × (J.limits ≡ space_limits self.now) }
        requires desk { IsDeskOf self.now desk.old }
        ensures desk { IsSameDesk desk.old desk.new × (view desk.new ≡ view desk.old) }
        ensures place { IsPlace (program_of self.now) (view desk.old).kept }
    {
        self.table.shared.load::<FindPlace<J>>(&mut desk.seat, 0);
    }

    // What the desk keeps is a place of the run.
    fn find_place(&self, desk: &mut Desk<P>)
        requires desk { IsDeskOf self.now desk.old }
        ensures desk { IsSameDesk desk.old desk.new × (view desk.new ≡ view desk.old) }
        ensures place { IsPlace (program_of self.now) (view desk.old).kept }
    {
        self.step_find_place::<Brand>(desk);
    }

    /// The first desk takes over the entries and the duties of another one, whose walks and looks are dropped. What it then keeps
    /// is a place of the run. The load after the union tells that.
    pub fn join(&self, desk: &mut Desk<P>, other: Desk<P>)
        requires desk { IsDeskOf self.now desk.old × IsDeskOf self.now other }
        requires first { (view desk.old).first ≡ true }
        requires idle { ((view other).claims ≡ []) × ((view other).flight ≡ None) }
        ensures united { IsSameDesk desk.old desk.new × (view desk.new ≡ united (view desk.old) (view other)) }
        ensures place { IsPlace (program_of self.now) (view desk.new).kept }
    {
        let Desk { seat, above: _ } = other;
        self.table.shared.join_seat::<Unite>(&mut desk.seat, seat);
        self.find_place(desk);
    }
}
