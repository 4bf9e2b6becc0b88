// Laws of the faults of books: the fault that is answered for a text is its first. It has no code.

ghost use Rattle.pm_laws_texts.specs.BookExamples.{FaultsStand, OrderDecides};
ghost use Rattle.pm_laws_texts.specs.BookLaws.{FirstFaultIsOne, FirstFaultIsRead};

/// A text that is read as a book has no fault as one, and of one that is not read the fault is its first.
pub fn law_first_book_fault_is_read()
    ensures { FirstFaultIsRead }
{}

/// No text has two first faults.
pub fn law_first_book_fault_is_one()
    ensures { FirstFaultIsOne }
{}

/// Which faults small texts have, which is the first, and what decides at one place.
pub fn example_book_faults()
    ensures faults { FaultsStand }
    ensures order { OrderDecides }
{}
