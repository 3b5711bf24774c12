// The numbers of an answer, stored in the list that C lends for them.
ghost use Rattle.std.specs.Prelude.{◌≡◌, length};
ghost use Rattle.terms.specs.declared.ListFault.TheVariants.{BufferLength};
ghost use Rattle.terms.specs.declared.Refusal.TheVariants.{OfList};
ghost use Rattle.terms.specs.Refusal.{number_of};
ghost use Rattle.terms.specs.Answer.{answer_number};
ghost use Rattle.oblachura.specs.AnswerNumbers.{read_numbers, answer_numbers};

use reader::{Reading, period, trains};
use terms::{Answer, ListFault, Refusal, carries, number, place};

// How many numbers read stores, and how many the others.
pub const READ_ANSWER: usize = 4;

pub const ANSWER: usize = 3;

// What a call returns whose list has another length.
pub fn wrong_list() -> u32
    ensures { result ≡ number_of (OfList BufferLength) }
{
    Refusal::OfList(ListFault::BufferLength).number()
}

// What read answered: number, place, m and T. The number is returned too.
pub fn tell_reading(told: Reading, answer: &mut [u64]) -> u32
    requires { length answer.old ≡ 4 }
    ensures { (result ≡ answer_number told) × (answer.new ≡ read_numbers told) }
{
    let number = number(told);
    answer.copy_from_slice(&[
        u64::from(number),
        u64::from(place(told)),
        u64::from(trains(told)),
        u64::from(period(told)),
    ]);
    number
}

// What write, plan or report answered: number, place and the one number that an accepted call
// brings. The number is returned too.
pub fn tell_answer(told: Answer, answer: &mut [u64]) -> u32
    requires { length answer.old ≡ 3 }
    ensures { (result ≡ answer_number told) × (answer.new ≡ answer_numbers told) }
{
    let number = number(told);
    answer.copy_from_slice(&[u64::from(number), u64::from(place(told)), carries(told)]);
    number
}
