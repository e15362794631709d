ghost use Rattle.xs_regex.specs.Links.{OneAutomaton};

/// Automata of regexes of one shape, with the same classes, are linked alike.
pub fn one_automaton()
    ensures { OneAutomaton }
{}
