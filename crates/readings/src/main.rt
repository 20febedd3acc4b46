//! Runs the worked readings through the library, and prints what comes out.
#![tactic(auto)]

mod worked;

use blocks::block::Block;
use code_layers::glue::Glue;
use codes::even_weight::EvenWeight;
use codes::reed_muller::ReedMuller;
use finders::points::PointFinder;
use finders::refusals::Refusal;
use finders::rounding::round;
use finders::words::WordFinder;
use lattice_layers::e8::e8_by_glue;
use lattices::lattice_d::LatticeD;
use std::io;
use worked::all_worked_readings_hold;

const STEP: u32 = 10;

fn print_point<const N: usize>(
    rt: &impl Print,
    name: &str,
    lattice: &impl PointFinder,
    readings: &[i32; N],
) -> io::Result<()> {
    let mut place = [0; N];
    // each case prints a line of its own
    match lattice.find(readings, STEP, &mut place) {
        Ok(distance) => println!(rt; "{name} of {readings:?} is {place:?} at {distance}"),
        Err(refusal) => println!(rt; "{name} of {readings:?} is {refusal}"),
    }
}

// What a block over the lattice decides of two senses.
fn print_decision<const N: usize>(
    rt: &impl Print,
    name: &str,
    lattice: impl PointFinder + Drop,
    senses: [[i16; N]; 2],
) -> io::Result<()> {
    let mut block = Block::new(lattice);
    let mut place = [0; N];
    match decide(&mut block, &senses, &mut place) {
        Ok(total) => println!(rt; "a block over {name} decides {place:?} with total {total}"),
        Err(refusal) => println!(rt; "a block over {name} is {refusal}"),
    }
}

fn decide<F: PointFinder, const N: usize>(
    block: &mut Block<F>,
    senses: &[[i16; N]],
    place: &mut [i32],
) -> Result<u64, Refusal> {
    block.open(STEP)?;
    for sense in senses {
        block.sense(sense)?;
    }
    block.decide(place)
}

// Whether a block over the lattice opens at a step.
fn print_opening(
    rt: &impl Print,
    name: &str,
    lattice: impl PointFinder + Drop,
    step: u32,
) -> io::Result<()> {
    match Block::new(lattice).open(step) {
        Ok(()) => println!(rt; "a block over {name} opens at step {step}"),
        Err(refusal) => println!(rt; "a block over {name} at step {step} is {refusal}"),
    }
}

// What the last of some senses is answered.
fn print_last_sense(rt: &impl Print, senses: u32) -> io::Result<()> {
    let mut block = Block::new(LatticeD::new(1));
    let mut last = block.open(STEP).map(|()| 0);
    for _ in 0..senses {
        last = block.sense(&[0]);
    }
    match last {
        Ok(count) => println!(rt; "sense {senses} is answered {count}"),
        Err(refusal) => println!(rt; "sense {senses} is {refusal}"),
    }
}

fn print_word(
    rt: &impl Print,
    name: &str,
    code: &impl WordFinder,
    gains: &[i32],
) -> io::Result<()> {
    match code.find(gains) {
        Ok((word, correlation)) => println!(rt; "{name} of {gains:?} is {word} at {correlation}"),
        Err(refusal) => println!(rt; "{name} of {gains:?} is {refusal}"),
    }
}

fn main(rt: HostRuntime) -> io::Result<()> {
    all_worked_readings_hold();
    for reading in [15, -15, 5, 16] {
        let number = round(reading, STEP).number;
        println!(rt; "{reading} is rounded to {number}")?;
    }
    for reading in [10, -10, 0] {
        let number = round(reading, STEP).other_way();
        println!(rt; "{reading} the other way is {number}")?;
    }
    print_point(&rt, "D", &LatticeD::new(4), &[10, 0, 0, 0])?;
    let e8 = e8_by_glue();
    print_point(&rt, "E8 by glue", &e8, &[5; 8])?;
    print_point(&rt, "E8 by glue", &e8, &[10; 8])?;
    print_decision(&rt, "D", LatticeD::new(2), [[15, 4], [5, 6]])?;
    for step in [8192, 8193] {
        print_opening(&rt, "E8 by glue", e8_by_glue(), step)?;
    }
    for step in [16384, 16385] {
        print_opening(&rt, "D", LatticeD::new(2), step)?;
    }
    for senses in [64, 65] {
        print_last_sense(&rt, senses)?;
    }
    print_word(&rt, "EvenWeight", &EvenWeight::new(4), &[0, 0, -4, 1])?;
    print_word(&rt, "ReedMuller 2", &ReedMuller::new(2), &[1, 1, 1, -1])?;
    let glued = Glue::new(EvenWeight::new(2), &[1]);
    print_word(&rt, "Glue of 1 over EvenWeight", &glued, &[-3, 2])
}
