// Laws of the faults of values: the fault that reading answers is the first in reading order. It has no code.

ghost use Rattle.pm_laws_texts.specs.ValueExamples.{FaultsStand, PlacesAreOrdered};
ghost use Rattle.pm_laws_texts.specs.FileExamples.{KeysAreNamed};
ghost use Rattle.pm_laws_texts.specs.FileFaults.{FirstKeyIsNamed};
ghost use Rattle.pm_laws_texts.specs.ValueLaws.{FirstFaultIsRead};

/// The fault of a value is the first in reading order, and one that is read has none.
pub fn law_first_fault_is_read()
    ensures { FirstFaultIsRead }
{}

/// Which place is read before which, and which faults stand in small values.
pub fn example_faults()
    ensures places { PlacesAreOrdered }
    ensures faults { FaultsStand }
{}

/// The fault of a file in its values is that of the first key with a fault, and there the first.
pub fn law_first_key_is_named()
    ensures { FirstKeyIsNamed }
{}

/// Which faults stand in small files, and which key is named.
pub fn example_keys()
    ensures { KeysAreNamed }
{}
