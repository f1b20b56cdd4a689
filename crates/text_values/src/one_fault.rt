// Texts have one least fault, or none.
ghost use Rattle.text_values.specs.OneFault.{HaveOneFault, HasOnePlanFault};

use hddl_reader::Language;

/// Two texts of a language have one least fault at most, in one file, with one code and at one place, and none where they have no
/// fault, whatever tables of words they are read into.
pub fn one_least_fault(language: &Language, domain: &[u8], problem: &[u8])
    ensures { HaveOneFault language.now domain.now problem.now }
{}

/// A text has one fault at most as a plan, and none where it is read as one.
pub fn one_fault_of_a_plan(text: &[u8])
    ensures { HasOnePlanFault text.now }
{}
