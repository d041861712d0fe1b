// Semaphores and bolts: what can be taken and given back, one number or a list.
#![tactic(auto)]

ghost use Rattle.std.specs.Prelude.{◌≡◌, true, ℕ, ◌<◌, ltb};
ghost use Rattle.lists.specs.Lists.{distinct, every};
ghost use Rattle.lock.specs.Locks.{most_locks, waiting, value_at, bolt_at, can_move, move_one, can_move_all, move_all};

// The places of the table of semaphores, and of that of bolts.
pub const MOST_LOCKS: u8 = 16;

const MOST_VALUE: u16 = record::MOST_VALUE as u16;

// What a task waits for.
#[derive(Clone, Copy)]
pub enum Wait {
    Nothing,
    Request,
    Reserve,
    Enter,
}

// A list is taken, or given back.
#[derive(Clone, Copy)]
pub enum Way {
    Take,
    Give,
}

#[derive(Clone, Copy)]
pub struct Bolt {
    pub writer: bool,
    pub readers: u16,
}

#[derive(Clone, Copy)]
pub struct Locks {
    pub semaphores: [u16; MOST_LOCKS as usize],
    pub bolts: [Bolt; MOST_LOCKS as usize],
}

pub fn is_waiting(w: Wait) -> bool
    ensures { result ≡ waiting w }
{
    !matches!(w, Wait::Nothing)
}

// Whether a number with this value and this bolt can be taken, or given back. These two are all that it depends on.
#[tactic(auto, unfolding(crate::specs::Locks::can_move))]
pub fn can_move(way: Way, w: Wait, v: u16, b: Bolt) -> bool
    ensures { (l : Locks) (x : ℕ) → v ≡ value_at l x → b ≡ bolt_at l x → result ≡ can_move way w l x }
{
    match (way, w) {
        (_, Wait::Nothing) => false,
        (Way::Take, Wait::Request) => 0 < v,
        (Way::Take, Wait::Reserve) => !b.writer & (b.readers == 0),
        (Way::Take, Wait::Enter) => !b.writer & (b.readers < MOST_VALUE),
        (Way::Give, Wait::Request) => v < MOST_VALUE,
        (Way::Give, Wait::Reserve) => b.writer,
        (Way::Give, Wait::Enter) => 0 < b.readers,
    }
}

impl Locks {
    #[tactic(auto, unfolding(crate::specs::Locks::can_move, crate::specs::Locks::move_one))]
    fn move_one(mut self, way: Way, w: Wait, x: usize) -> Locks
        requires x_lt_most_locks { x < most_locks }
        requires x_value { can_move way w self x ≡ true }
        ensures { result ≡ move_one way w self x }
    {
        match (way, w) {
            (_, Wait::Nothing) => {}
            (Way::Take, Wait::Request) => self.semaphores[x] -= 1,
            (Way::Take, Wait::Reserve) => self.bolts[x].writer = true,
            (Way::Take, Wait::Enter) => self.bolts[x].readers += 1,
            (Way::Give, Wait::Request) => self.semaphores[x] += 1,
            (Way::Give, Wait::Reserve) => self.bolts[x].writer = false,
            (Way::Give, Wait::Enter) => self.bolts[x].readers -= 1,
        }
        self
    }

    // Whether each number of a list can be taken, or given back.
    pub fn can_move_all(&self, way: Way, w: Wait, list: &[u8]) -> bool
        requires { every (λ x. ltb x most_locks) list.now ≡ true }
        ensures { result ≡ can_move_all way w self.now list.now }
    {
        for &number in list {
            let x = number as usize;
            if !can_move(way, w, self.semaphores[x], self.bolts[x]) {
                return false;
            }
        }
        true
    }

    // The numbers of a list, each taken or given back once.
    pub fn move_all(mut self, way: Way, w: Wait, list: &[u8]) -> Locks
        requires list_value { every (λ x. ltb x most_locks) list.now ≡ true }
        requires list_value_2 { distinct list.now ≡ true }
        requires list_value_3 { can_move_all way w self list.now ≡ true }
        ensures { result ≡ move_all way w self list.now }
    {
        for &x in list {
            self = self.move_one(way, w, x as usize);
        }
        self
    }
}
