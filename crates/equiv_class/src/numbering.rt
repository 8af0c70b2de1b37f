//! Numbers of sequences, by their first object.

ghost use Rattle.std.specs.Prelude.{◌<◌, ◌^◌, length, All, IfOk};
ghost use Rattle.equiv_class.specs.steps.Numbers.{IsCounted, IsNumbered};

use ftn_base::NoMemory;
use std::alloc::Global;

/// The number of each object's sequence, and the label of each number.
#[derive(Drop)]
pub(crate) struct Numbered {
    pub(crate) class: Vec<u32>,
    pub(crate) order: Vec<u32>,
}

// the number of a sequence, which gets the next one where it has none
fn number_of(numbers: &mut [Option<u32>], order: &mut Vec<u32>, label: u32) -> Result<u32, NoMemory>
    requires known { label < length numbers.old }
    requires few { length order.old.items < 2 ^ 32 }
    ensures { IfOk result (λ number. IsCounted numbers.old order.old.items label number numbers.new order.new.items) }
{
    match numbers[label as usize] {
        Some(number) => Ok(number),
        None => {
            let number = order.len() as u32;
            order.push(label)?;
            numbers[label as usize] = Some(number);
            Ok(number)
        }
    }
}

/// Numbers sequences by their first object.
pub(crate) fn number(alloc: Global, label: &[u32]) -> Result<Numbered, NoMemory>
    requires few { length label.now < 2 ^ 32 }
    requires known { All (λ one. one < length label.now) label.now }
    ensures { IfOk result (λ numbered. IsNumbered label.now numbered.class.items numbered.order.items) }
{
    let mut numbers = vec![in alloc; None; label.len()]?;
    let mut class = Vec::new(alloc);
    let mut order = Vec::new(alloc);
    for one in label {
        let number = number_of(&mut numbers, &mut order, *one)?;
        class.push(number)?;
    }
    Ok(Numbered { class, order })
}
