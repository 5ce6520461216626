// Gives records their slots: again and again the earliest unplaced record whose children are all placed gets the next one.
#![tactic(auto)]

ghost use Rattle.std.specs.Prelude.{◌≡◌, ◌+◌, ◌*◌, ◌≤◌, ◌<◌, length, set, IfSome};
ghost use Rattle.placing.specs.Placing.{settled, ready, earliest, Placed, placing, Links};

// n records by their links, and the slots that they have so far: the first words of fixed tables, which may be longer.
#[derive(Clone, Copy)]
struct Linked<'a> {
    links: &'a [u32],
    n: usize,
    slots: &'a [u32],
    ghost linked: { Links links.now n (length slots.now) },
}

impl Linked<'_> {
    // Whether a link names no record, or a placed one.
    #[tactic(auto, unfolding(crate::specs::Placing::settled))]
    fn settled(&self, link: u32) -> bool
        requires { link ≤ length self.now.slots.now }
        ensures { result ≡ settled self.now.slots.now link }
    {
        link == 0 || self.slots[link as usize - 1] != 0
    }

    // Whether record i is unplaced and its children are all placed.
    #[tactic(auto, unfolding(crate::specs::Placing::ready))]
    fn ready(&self, i: usize) -> bool
        requires { i < self.now.n }
        ensures { result ≡ ready self.now.links.now self.now.slots.now i }
    {
        self.slots[i] == 0 && self.settled(self.links[2 * i]) && self.settled(self.links[2 * i + 1])
    }

    // The earliest record that is ready.
    fn earliest(&self) -> Option<usize>
        ensures first { result ≡ earliest self.now.links.now self.now.slots.now self.now.n 0 }
        ensures within { IfSome result (λ i. i < self.now.n) }
    {
        (0..self.n).find(|i| self.ready(*i))
    }
}

// Places what can be placed of n records; `slots` gets each one's slot plus one. How many are placed.
#[tactic(auto, using(crate::proofs::Turns::place_next, crate::proofs::Turns::place_stuck, crate::proofs::Turns::place_last), unfolding(crate::specs::Placing::put))]
pub fn place(links: &[u32], n: usize, slots: &mut [u32]) -> usize
    requires { Links links.now n (length slots.old) }
    ensures { record { slots = slots.new; count = result }
        ≡ placing n links.now n (record { slots = slots.old; count = 0 }) }
{
    for k in 0..n {
        let Some(i) = (Linked { links, n, slots }).earliest() else {
            return k;
        };
        slots[i] = k as u32 + 1;
    }
    n
}
