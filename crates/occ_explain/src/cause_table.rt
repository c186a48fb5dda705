//! The causes of refusals in `docs/language.md`. `tools/tables.py` writes this file.

pub const CAUSES: [(u32, &str); 29] = [
    (1, "a source of more than 1,048,576 bytes"),
    (
        2,
        "a byte that begins no word, or that may not stand in a literal",
    ),
    (3, "an odd number of spaces before a logical line"),
    (
        4,
        "a number that is too large or has no digits, or a byte literal of none or several characters",
    ),
    (5, "an escape that stands for no byte"),
    (6, "a string that does not end on its line"),
    (
        7,
        "a line that goes on, where no line follows or the next one begins too far to the left",
    ),
    (
        20,
        "a word that the grammar does not allow at its place, as a fifth size or subscript, or a line that ends too early",
    ),
    (21, "a line at a level that the grammar does not allow"),
    (
        22,
        "the source ends where a line must follow; the line is the last one",
    ),
    (
        23,
        "more than 64 levels, or more than 64 parentheses and subscripts open at one place",
    ),
    (30, "a name that is not declared at its place"),
    (
        31,
        "a name twice in one declaration, formal list or tag list, or a constant twice in a CASE",
    ),
    (
        32,
        "a name that stands for another kind of thing than its place takes: a channel that is read, or a named value or an index that is assigned or is a reference actual; also a second ELSE",
    ),
    (
        33,
        "operands or sides whose types do not fit, different numbers of sides, or a literal outside its type",
    ),
    (
        34,
        "an expression that is not constant, where a constant must stand",
    ),
    (
        35,
        "a size below 1, or a replicated PAR whose count or last index is out of range",
    ),
    (36, "a constant subscript outside the size of its array"),
    (
        37,
        "items that do not fit the channel's protocol; also CASE where messages have no tags, or none where they have",
    ),
    (
        38,
        "a tag that the protocol does not have, or one twice in one input",
    ),
    (
        39,
        "actuals that do not fit the formals in number, kind, type or size",
    ),
    (
        40,
        "two reference actuals of one call that share a component; an actual under a subscript that is not constant counts as the whole array",
    ),
    (
        41,
        "a target twice in one list, or one whose subscript reads another target of the list",
    ),
    (
        42,
        "no PROC, or a last PROC whose formals are not those of a main process",
    ),
    (
        43,
        "more than 1,048,576 cells, 4,096 channels with the first three, 4,096 processes or 100,000 nodes of the unfolded program; nodes more than 200 deep; or two sizes or more that multiply to more than 1,048,576",
    ),
    (
        50,
        "a variable that one branch of a PAR writes and another one uses",
    ),
    (51, "a channel from which two branches input"),
    (52, "a channel to which two branches output"),
    (60, "a program of more than 262,144 instructions"),
];
