// Texts whose reading is known, and texts that are at fault, as examples of the definitions.
ghost use Rattle.std.specs.List.{AllByRecursion};
ghost use Rattle.pattern_laws.specs.Examples.{ReadsAsSaid, HasSaidFault, ReadsAsSaidPorts, HasSaidPortFault};
ghost use Rattle.pattern_laws.specs.Examples.{header_examples, item_examples};
ghost use Rattle.pattern_laws.specs.Examples.{header_fault_examples, item_fault_examples, end_fault_examples};
ghost use Rattle.pattern_laws.specs.Examples.{ports_examples, too_large_texts, large_texts};
ghost use Rattle.pattern_reading.specs.Pattern.{IsGridTooLarge};
ghost use Rattle.pattern_laws.specs.Examples.{bad_line_examples, bad_order_examples, outside_port_examples, twice_examples};

/// Example texts of extended RLE read as their patterns. They have the forms that a header and
/// items may have.
pub fn patterns_read()
    ensures headers { AllByRecursion ReadsAsSaid header_examples }
    ensures items { AllByRecursion ReadsAsSaid item_examples }
{}

/// Example texts of extended RLE have their faults on their lines.
pub fn faults_of_patterns()
    ensures headers { AllByRecursion HasSaidFault header_fault_examples }
    ensures items { AllByRecursion HasSaidFault item_fault_examples }
    ensures ends { AllByRecursion HasSaidFault end_fault_examples }
{}

/// Some example texts have a box that is too large for a reader, and others have none.
pub fn large_boxes()
    ensures too_large { AllByRecursion IsGridTooLarge too_large_texts }
    ensures not_too_large { AllByRecursion (λ text. ¬ (IsGridTooLarge text)) large_texts }
{}

/// Example texts read as their port tables. They have the forms that lines of a table may have.
pub fn ports_read()
    ensures { AllByRecursion ReadsAsSaidPorts ports_examples }
{}

/// Example texts have their faults in their port tables, on their lines.
pub fn faults_of_ports()
    ensures bad_line { AllByRecursion HasSaidPortFault bad_line_examples }
    ensures bad_order { AllByRecursion HasSaidPortFault bad_order_examples }
    ensures outside { AllByRecursion HasSaidPortFault outside_port_examples }
    ensures twice { AllByRecursion HasSaidPortFault twice_examples }
{}
