//! The least form of a packing, told by its form as it lies.
ghost use Rattle.std.specs.Prelude.{◌≡◌, ◌+◌, ◌<◌, IsTrue, length, slice_index};
ghost use Rattle.shared_words.specs.Answers.{ReturnsItems};
ghost use Rattle.poly_place.specs.Lists.{lists_of};
ghost use Rattle.poly_place.specs.Forms.{form_by, least_from, lesser, AreBelow};
ghost use Rattle.poly_distinct.specs.Form.{with_noted, first_place, second_place, EachIsMove, IsMove};

use crate::counts::zeros;
use std::alloc::{AllocError, Global};
use std::cmp::Ordering;

/// The least of a form and of those that it has where it is carried in each way.
pub fn least_form(
    alloc: Global,
    form: &[usize],
    carriers: &[Vec<usize>],
) -> Result<Vec<usize>, AllocError>
    requires below { AreBelow (length form.now + 1) form.now }
    requires carriers { EachIsMove (length form.now) (lists_of carriers.now) }
    ensures { ReturnsItems result (least_from form.now form.now (lists_of carriers.now)) }
{
    let mut firsts = zeros(alloc, form.len() + 1)?;
    let mut best = Vec::from_slice(alloc, form)?;
    for carrier in carriers {
        lower(&mut best, &mut firsts, form, carrier.as_slice());
    }
    Ok(best)
}

/// Makes `best` the form of the numbers, carried, if that is less. Most forms are found to be greater after a few places, many of these
/// before the table is cleared.
fn lower(best: &mut [usize], firsts: &mut [usize], numbers: &[usize], carrier: &[usize])
    requires long { length best.old ≡ length numbers.now }
    requires below { AreBelow (length firsts.old) numbers.now }
    requires carrier { IsMove (length numbers.now) carrier.now }
    ensures best { best.new ≡ lesser (form_by numbers.now carrier.now) best.old }
    ensures firsts { length firsts.new ≡ length firsts.old }
{
    if starts_above(best, numbers, carrier) {
        return;
    }
    firsts.fill(0);
    let mut order = Ordering::Equal;
    for k in 0..carrier.len() {
        let first = first_noted(firsts, numbers[carrier[k]], k + 1);
        order = order.then(first.cmp(&best[k]));
        if order.is_gt() {
            return;
        }
        best[k] = first;
    }
}

/// Whether the first two places tell that the form of the numbers, carried, is greater than another one.
fn starts_above(best: &[usize], numbers: &[usize], carrier: &[usize]) -> bool
    requires long { length best.now ≡ length numbers.now }
    requires carrier { IsMove (length numbers.now) carrier.now }
    ensures { IsTrue result → best.now ≡ lesser (form_by numbers.now carrier.now) best.now }
{
    if carrier.len() < 2 {
        return false;
    }
    let first = numbers[carrier[0]];
    let second = numbers[carrier[1]];
    let order = first_place(first).cmp(&best[0]);
    order
        .then(second_place(first, second).cmp(&best[1]))
        .is_gt()
}

/// What a form has at its first place.
fn first_place(first: usize) -> usize
    ensures { result ≡ first_place first }
{
    if first == 0 { 0 } else { 1 }
}

/// What a form has at its second place.
fn second_place(first: usize, second: usize) -> usize
    ensures { result ≡ second_place first second }
{
    if second == 0 {
        0
    } else if second == first {
        1
    } else {
        2
    }
}

/// Where a number stands first, from 1 on, and 0 for 0: as it was noted, or else at this place, which is noted.
fn first_noted(firsts: &mut [usize], number: usize, place: usize) -> usize
    requires { number < length firsts.old }
    ensures firsts { firsts.new ≡ with_noted firsts.old number place }
    ensures first { result ≡ slice_index firsts.new number }
{
    if number > 0 && firsts[number] == 0 {
        firsts[number] = place;
    }
    firsts[number]
}
