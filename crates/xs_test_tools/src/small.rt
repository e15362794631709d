//! Small sheets.

/// Two digits in parentheses with a comma between them, which are the other way round in XML:
/// elements p, x and y have the numbers 0, 1 and 2.
pub const PAIR: &str = "xsugar-1\nstart s\nterminal d = /[0-9]/\n\
    s : \"(\" [d a] \",\" [d b] \")\" = <p><y>[d b]</y><x>[d a]</x></p>\n";

/// Pairs with spaces, which carry nothing, round each part.
pub const SPACED: &str = "xsugar-1\nstart s\nterminal d = /[0-9]/\nignorable w = / */ \"\"\n\
    s : \"(\" [w] [d a] [w] \",\" [w] [d b] [w] \")\" = <p><y>[d b]</y><x>[d a]</x></p>\n";

/// The empty text, which is an empty element.
pub const EMPTY: &str = "xsugar-1\nstart s\ns : = <s/>\n";

/// A letter in any number of parentheses.
pub const NESTED: &str =
    "xsugar-1\nstart s\ns : \"a\" = <a/>\ns : \"(\" [s x] \")\" = <s>[s x]</s>\n";

/// Any number of letters, by a rule that begins with itself.
pub const LEFT: &str =
    "xsugar-1\nstart s\ns : [l x] = <s>[l x]</s>\nl : =\nl : [l x] \"a\" = [l x] <a/>\n";

/// Any number of letters, by a rule that ends with itself.
pub const RIGHT: &str =
    "xsugar-1\nstart s\ns : [l x] = <s>[l x]</s>\nl : =\nl : \"a\" [l x] = <a/> [l x]\n";
