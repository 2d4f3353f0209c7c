// Walk cases: a list stepped forward and back, and what a host may change between the steps.
ghost use Rattle.std.specs.Prelude.{◌≤◌};
ghost use Rattle.vectors.specs.declared.made.TheConstants.{IMAGE, DST, LIST};
ghost use Rattle.vectors.specs.declared.walk_case.TheConstants.{STORE};

use crate::form::{Kind, number, numbers, place};
use crate::lines::{NOTHING, checksum, print};
use crate::made::{DST, Host, IMAGE, LIST, put_change};
use host::{replay_back, replay_begin, replay_forward};
use std::io;
use std::io::{Read, Write};

// More words than any store has: 40 entries, and ten words.
const STORE: usize = 32090;

// How much of each array is lent.
#[derive(Clone, Copy)]
struct Lengths {
    image: usize,
    dst: usize,
    list: usize,
    store: usize,
    ghost image_within: { image ≤ IMAGE },
    ghost dst_within: { dst ≤ DST },
    ghost list_within: { list ≤ LIST },
    ghost store_within: { store ≤ STORE },
}

impl Lengths {
    fn read<R: Read>(input: &mut R) -> Lengths {
        Lengths {
            image: place(input, IMAGE),
            dst: place(input, DST),
            list: place(input, LIST),
            store: place(input, STORE),
        }
    }
}

#[derive(Clone, Copy)]
enum Step {
    Begin,
    Forward,
    Back,
}

// A walk that a host makes.
#[derive(Drop)]
struct Walking {
    store: [u32; STORE],
    lent: Lengths,
    walk: [u32; 2],

    // What the beginning answered.
    outcome: [u32; 4],

    // The checksum of what the steps answered and left.
    sum: u32,
}

impl Walking {
    // A step over as much of each array as is lent then; the checksum goes on over what it answers and leaves.
    fn step(&mut self, host: &mut Host, step: Step) {
        // Each array is lent whole and then in part: a part of a field's array is not covered by the borrow checker in one step.
        let settings = &host.settings;
        let image = &mut host.image[..];
        let image = &mut image[..self.lent.image];
        let dst = &mut host.dst[..];
        let dst = &mut dst[..self.lent.dst];
        let list = &host.list[..self.lent.list];
        let store = &mut self.store[..];
        let store = &mut store[..self.lent.store];
        let walk = &mut self.walk;
        // a match and no closure: each of the three borrows other parts
        let answer = match step {
            Step::Begin => replay_begin(settings, image, dst, list, &mut self.outcome, walk),
            Step::Forward => replay_forward(settings, image, dst, list, store, walk),
            Step::Back => replay_back(settings, image, dst, list, store, walk),
        };
        let told = checksum(checksum(self.sum, &[answer]), walk);
        self.sum = checksum(checksum(checksum(told, image), store), dst);
    }

    // A step, or what a host changes between steps. The numbers are those of tests/CASES.md, and read here alone: an enum would name each arm twice.
    fn call<R: Read>(&mut self, host: &mut Host, input: &mut R) {
        match number(input) {
            1 => self.step(host, Step::Forward),
            2 => self.step(host, Step::Back),
            3 => put_change(input, &mut self.store),
            4 => put_change(input, &mut host.image),
            5 => self.walk = numbers(input),
            6 => host.put_setting(input),
            7 => self.lent = Lengths::read(input),
            _ => {}
        }
    }

    // What the beginning answered, and where the walk stands at the end.
    fn print<W: Write>(&self, out: &mut W) -> io::Result<()> {
        let [answer, steps, place, cursor] = self.outcome;
        let [at, after] = self.walk;
        print(
            out,
            Kind::Walk,
            &[answer, steps, place, cursor, at, after],
            self.sum,
        )
    }
}

// What a host lends, the four lengths, the walk's two words, and the calls.
pub(crate) fn walk_case<R: Read, W: Write>(input: &mut R, out: &mut W) -> io::Result<()> {
    let mut host = Host::zeros();
    host.fill(input);
    let mut walking = Walking {
        store: [2779096485; STORE],
        lent: Lengths::read(input),
        walk: numbers(input),
        outcome: [0; 4],
        sum: NOTHING,
    };
    let calls = number(input);
    walking.step(&mut host, Step::Begin);
    for _ in 0..calls {
        walking.call(&mut host, input);
    }
    walking.print(out)
}
