//! The page that tells the refusals by their numbers.

/// How a refusal is said, and a line for each: its number, the status that the program then ends with, and its cause.
pub const REFUSALS: &str =
    "A run that is stopped says `firmament: refusal N`, and ` at step K` if a step caused it, counted from 1.

 N  status  cause
 1  4       there was not enough memory
 2  3       a field of an operation is out of its range
 3  3       a history has as many entries as its limit
 4  3       a cut ends before it starts or beyond the end, or a trim is below the floor or beyond the end
 5  3       a cut starts below the floor: what it asks for was trimmed
 6  3       the digits spell no packet
 7  7       a flow was not certified
 8  3       no coordinator has the number
 9  3       no packet was cut under the name
10  3       an inbox has as many packets as it takes
11  3       an inbox has no packet
12  5       histories cannot be gathered into one list of steps
13  5       a seat is missing, or its list is not in the history
14  3       there is no greater version
15  3       there is no later attempt
16  3       the input is no script, or a step breaks a rule
17  6       the output could not be written
18  3       the text is no network
21  8       the file is no store, or damaged: the place of the damage is told, counted from 0
22  9       a store cannot be used: its file cannot be read or written, is locked, or is another cluster's
";
