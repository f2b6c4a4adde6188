// What the tool says in whole sentences.

pub const HELP: &str = "\
sealkit                              a parcel's journey from a till's coins to its secret, and the answer in steps
sealkit sets                         the built-in sets: bound, line, verdict, and what certainty costs
sealkit set SET                      the same for the set of a set file
sealkit card SERIAL SET              the line to note beside a till's serial number
sealkit new-rack SET RACK            writes a rack file: the set, and four empty places
sealkit show RACK                    its set, and which places are in use
sealkit issue RACK PLACE COINS       keeps 96 bytes of coins at an empty place
sealkit publish RACK PLACE KEY       writes the key of a place
sealkit open RACK PLACE PARCEL SECRET
                                     writes the secret that the coins of a place make of a parcel
sealkit retire RACK PLACE            empties a place
sealkit seal SET KEY MESSAGE PARCEL SECRET
                                     seals a message to a key: writes the parcel and the station's secret
sealkit raw SET SEED PARCEL RAW      writes the raw bits of a parcel, a byte 0 or 1 each
sealkit gauge SET SEEDS              prints the noise of each symbol, how many are out of band, and the bound
sealkit help                         this text

The last names of publish, open, seal and raw are files to be written; issue and retire write the rack file
anew. All files but set files are plain bytes. Random bytes are yours to bring: coins are 96 of them.
issue, publish, open, seal, raw and gauge take --tape FILE in front of their other words, to draw from the
bytes of that file in place of SHAKE256.
A refusal prints `refused NUMBER VALUE..: a sentence` and ends with status 1; nothing is then written.

A set file has a line for each field, in any order; # begins a comment, and spaces are free:
    n = 16           coefficients
    h = 2            signs in a secret
    qb = 8           q = 2^qb, the modulus before rounding
    pb = 6           p = 2^pb, the modulus after rounding
    tb = 3           t = 2^tb, the modulus of symbols
    kappa = 8        payload bits
    f = 1            symbols that the code mends
    lengths = 3, 4   its 2 f check lengths; may be left out where f = 0
    block = no       whether the first check goes by blocks, yes or no; may be left out for no";

pub const JOURNEY: &str = "\
A parcel's journey with a published set of Round5. The coins and the message are fixed bytes, so that
this text is the same each time; real ones are random bytes that the caller brings.
";

pub const QUESTION: &str = "
Can a parcel that nobody touched fail to open at the till that it was sealed for? What is proved, and
what it says of this set:";
