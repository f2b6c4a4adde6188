// Refusals by their numbers.
ghost use Rattle.std.specs.Prelude.{◌≡◌, ◌+◌, ◌-◌, ◌≤◌, ◌++◌, length, replicate};
ghost use Rattle.calls.specs.Numbers.{buffer_number, input_number, refusal_numbers};
ghost use Rattle.wire.specs.Faults.{fault_numbers};

use crate::refusal::{Buffer, Input, Refusal};
use std::marker::Model;
use wire::WireFault;

/// The number of a refusal and its values, one to four in all.
#[derive(Clone, Copy)]
pub struct RefusalNumbers {
    count: usize,
    words: [u64; 4],
}

impl Model for RefusalNumbers {
    ghost use Rattle.std.specs.Prelude.{ℕ, ◌≡◌, ◌-◌, ◌≤◌, ◌++◌, List, length, take, replicate};

    ghost Value = { List ℕ };

    ghost view = { λ n. take n.count n.words };

    ghost invariant = { λ n. (n.count ≤ 4) × (length n.words ≡ 4) × (n.words ≡ take n.count n.words ++ replicate (4 - n.count) 0) };

    ghost inverse = { λ l. record { count = length l; words = l ++ replicate (4 - length l) 0 } };
}

impl RefusalNumbers {
    fn of(numbers: &[u64]) -> RefusalNumbers
        requires { length numbers.now ≤ 4 }
        ensures { result ≡ numbers.now }
    {
        let count = numbers.len();
        let mut words = [0; 4];
        words[0..count].copy_from_slice(numbers);
        RefusalNumbers { count, words }
    }

    /// The number and the values, as a slice.
    pub fn as_slice(&self) -> &[u64]
        ensures { result.now ≡ self.now }
    {
        &self.words[0..self.count]
    }

    /// The number and the values as four words: zeros follow them.
    pub fn words(&self) -> [u64; 4]
        ensures { result ≡ self.now ++ replicate (4 - length self.now) 0 }
    {
        self.words
    }
}

impl Buffer {
    /// The number of the buffer.
    pub fn number(self) -> u64
        ensures { result ≡ buffer_number self }
    {
        self as u64
    }
}

impl Input {
    /// The number of the input.
    pub fn number(self) -> u64
        ensures { result ≡ input_number self }
    {
        self as u64
    }
}

fn fault_numbers(fault: WireFault) -> RefusalNumbers
    ensures { result ≡ fault_numbers fault }
{
    match fault {
        WireFault::Length(had) => RefusalNumbers::of(&[14, 1, had as u64]),
        WireFault::Kind(byte) => RefusalNumbers::of(&[15, byte as u64]),
        WireFault::Fill => RefusalNumbers::of(&[16]),
    }
}

impl Refusal {
    /// The number of the refusal and its values.
    pub fn numbers(self) -> RefusalNumbers
        ensures { result ≡ refusal_numbers self }
    {
        match self {
            Refusal::NoSuchPlace(place) => RefusalNumbers::of(&[18, place as u64]),
            Refusal::EmptyPlace(place) => RefusalNumbers::of(&[19, place as u64]),
            Refusal::PlaceInUse(place) => RefusalNumbers::of(&[20, place as u64]),
            Refusal::WrongBuffer(buffer) => RefusalNumbers::of(&[13, buffer.number()]),
            Refusal::WrongInput(input, had) => {
                RefusalNumbers::of(&[14, input.number(), had as u64])
            }
            Refusal::Form(fault) => fault_numbers(fault),
            Refusal::Short(fault) => {
                RefusalNumbers::of(&[17, fault.label as u64, fault.entry as u64, fault.bytes])
            }
        }
    }
}
