// Stream words whose reading is known: the definitions give what they should.
ghost use Rattle.std.specs.List.{AllByRecursion};
ghost use Rattle.streams.specs.Examples.{SaysStreamFault, HasStreamsInAnyOrder, HasStreamOfNameWithEquals, HasStreamsInContexts, fault_examples, fault_examples_in_contexts};

/// The definitions give words at fault their known fault, and other words their known streams, in
/// one context and in two.
pub fn stream_words_read()
    ensures faults { AllByRecursion (SaysStreamFault 1) fault_examples }
    ensures faults_in_contexts { AllByRecursion (SaysStreamFault 2) fault_examples_in_contexts }
    ensures any_order { HasStreamsInAnyOrder }
    ensures last_equals { HasStreamOfNameWithEquals }
    ensures contexts { HasStreamsInContexts }
{}
