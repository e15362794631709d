//! The sheets of examples/, without their comments, each with its text.

const BIBLIOGRAPHY: &str = "xsugar-1\n\
    start entry\n\
    terminal family = /\\p{Lu}[\\p{L}\\-]+/\n\
    terminal letter = /\\p{Lu}/\n\
    terminal year = /[0-9]{4}/\n\
    terminal title = /[^.\\n]+/\n\
    entry : [people p] \" (\" [year y] \"). \" [title t] \".\\n\" = <bibl>[people p]<date>[year y]</date><title>[title t]</title></bibl>\n\
    people : [person a] = [person a]\n\
    people : [people p] \"; \" [person a] = [people p] [person a]\n\
    person : [family f] \", \" [initials i] = <author><surname>[family f]</surname>[initials i]</author>\n\
    initials : [letter l] \".\" = <initial>[letter l]</initial>\n\
    initials : [initials i] \" \" [letter l] \".\" = [initials i] <initial>[letter l]</initial>\n";

const DATES: &str = "xsugar-1\n\
    start date\n\
    terminal year = /[0-9]{4}/\n\
    terminal two = /[0-9]{2}/\n\
    date : [time t] \"\\n\" = <date>[time t]</date>\n\
    date : [time a] \"/\" [time b] \"\\n\" = <range><from>[time a]</from><to>[time b]</to></range>\n\
    time : [year y] = <year>[year y]</year>\n\
    time : [year y] \"-\" [two m] = <month year=[year y]>[two m]</month>\n\
    time : [year y] \"-\" [two m] \"-\" [two d] = <day month=[two m] year=[year y]>[two d]</day>\n";

const LINE: &str = "xsugar-1\n\
    start line\n\
    terminal number = /[1-9][0-9]*/\n\
    terminal letters = /\\p{L}+/\n\
    terminal spaces = / +/\n\
    line : [number n] \". \" [parts p] \"\\n\" = <ab><lb n=[number n]/>[parts p]</ab>\n\
    parts : [marks p] = [marks p]\n\
    parts : [word p] = [word p]\n\
    parts : [gap p] = [gap p]\n\
    marks : =\n\
    marks : [marks p] [mark m] = [marks p] [mark m]\n\
    marks : [word p] [mark m] = [word p] [mark m]\n\
    marks : [gap p] [mark m] = [gap p] [mark m]\n\
    word : [marks p] [letters t] = [marks p] [letters t]\n\
    word : [gap p] [letters t] = [gap p] [letters t]\n\
    gap : [marks p] [spaces t] = [marks p] [spaces t]\n\
    gap : [word p] [spaces t] = [word p] [spaces t]\n\
    mark : \"[.\" [number n] \"]\" = <gap reason=\"lost\" quantity=[number n] unit=\"character\"/>\n\
    mark : \".\" [number n] = <gap reason=\"illegible\" quantity=[number n] unit=\"character\"/>\n\
    mark : \"[\" [letters t] \"]\" = <supplied reason=\"lost\">[letters t]</supplied>\n\
    mark : \"(\" [letters a] \"(\" [letters b] \"))\" = <expan>[letters a]<ex>[letters b]</ex></expan>\n";

const MOVES: &str = "xsugar-1\n\
    start game\n\
    terminal number = /[1-9][0-9]*/\n\
    terminal move = /[KQRBN]?[a-h]?[1-8]?x?[a-h][1-8][+#]?/\n\
    game : [turns t] = <game>[turns t]</game>\n\
    turns : =\n\
    turns : [turns t] [turn x] = [turns t] [turn x]\n\
    turn : [number n] \". \" [move w] \"\\n\" = <turn n=[number n]><white>[move w]</white></turn>\n\
    turn : [number n] \". \" [move w] \" \" [move b] \"\\n\" = <turn n=[number n]><white>[move w]</white><black>[move b]</black></turn>\n";

const OUTLINE: &str = "xsugar-1\n\
    start outline\n\
    terminal words = /[^\\n*][^\\n]*/\n\
    outline : [sections s] = <outline>[sections s]</outline>\n\
    sections : =\n\
    sections : [sections s] [section x] = [sections s] [section x]\n\
    section : \"* \" [words w] \"\\n\" [points p] = <section><head>[words w]</head>[points p]</section>\n\
    points : =\n\
    points : [points p] \"** \" [words w] \"\\n\" = [points p] <point>[words w]</point>\n";

const SETTINGS: &str = "xsugar-1\n\
    start settings\n\
    terminal name = /[a-z][a-z0-9_]*/\n\
    terminal value = /([^ \\n][^\\n]*)?/\n\
    ignorable space = / */ \" \"\n\
    settings : [lines l] = <settings>[lines l]</settings>\n\
    lines : =\n\
    lines : [lines l] [line x] = [lines l] [line x]\n\
    line : [name n] [space] \"=\" [space] [value v] \"\\n\" = <set name=[name n]>[value v]</set>\n";

const TABLE: &str = "xsugar-1\n\
    start table\n\
    terminal field = /[^,\\n]*/\n\
    table : [rows r] = <table>[rows r]</table>\n\
    rows : =\n\
    rows : [rows r] [row x] = [rows r] [row x]\n\
    row : [fields f] \"\\n\" = <row>[fields f]</row>\n\
    fields : [field c] = <cell>[field c]</cell>\n\
    fields : [fields f] \",\" [field c] = [fields f] <cell>[field c]</cell>\n";

/// Each sheet with its text.
pub const EXAMPLES: [(&str, &str); 7] = [
    (
        BIBLIOGRAPHY,
        "Brabrand, C.; Møller, A.; Schwartzbach, M. I. (2008). Dual Syntax for XML Languages.\n",
    ),
    (DATES, "0117-08-11/0138\n"),
    (LINE, "1. (ἔτ(ους)) γ [.3] το[ῦ] .2\n"),
    (
        MOVES,
        "1. e4 e5\n\
     2. Qh5 Nc6\n\
     3. Bc4 Nf6\n\
     4. Qxf7#\n",
    ),
    (
        OUTLINE,
        "* Papyri\n\
     ** Letters & accounts\n\
     ** Literature\n\
     * Ostraca\n",
    ),
    (
        SETTINGS,
        "host = example.org\n\
     port = 8080\n\
     greeting = Hello, world!\n\
     empty = \n",
    ),
    (
        TABLE,
        "name,year,place\n\
     Iliad,-750,Ionia\n\
     Aeneid,-19,Rome\n\
     ,,\n",
    ),
];
