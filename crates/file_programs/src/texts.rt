// What the programs say of themselves.
use usage::Texts;

// The writer.
pub const PACK: Texts<'static> = Texts {
    usage: "usage: pack LIST FILE, or pack --help",
    help: &[PACK_HELP],
};

// The reader.
pub const UNPACK: Texts<'static> = Texts {
    usage: "usage: unpack FILE LIST, or unpack --help",
    help: &[UNPACK_HELP],
};

const PACK_HELP: &str = "usage: pack LIST FILE\n\
    \n\
    Reads request lines from LIST and writes them to FILE as a file for site lists:\n\
    the mark GMQ, a 16-bit version, 1, a 16-bit count of records, all numbers high\n\
    byte first, then the records. A record is the thirteen fields of a request as\n\
    32-bit signed numbers, in the units of the list (M in hundredths, angles in\n\
    degrees, Vs30 in m/s, all else in metres), blank being the lowest such number;\n\
    then thirteen bytes, 0 for a field that was measured, 1 for one that was inferred,\n\
    3 for a blank one. unpack FILE LIST writes the same list again.\n\
    \n\
    FILE appears whole or not at all, and an old one stays until then. A list that is\n\
    refused gets \"no\" and the number on standard error: 14 for a line that cannot be\n\
    read, also for a last one without its end; 20 for more than 65535 lines. No other\n\
    test of a request is made.\n\
    \n\
    Example: pack sites.txt sites.gmq\n\
    \n\
    Exit status: 0 where FILE was written; 1 where LIST is refused or cannot be read\n\
    or FILE cannot be written; 2 for any other arguments.\n";

const UNPACK_HELP: &str = "usage: unpack FILE LIST\n\
    \n\
    Reads FILE, a file for site lists as pack writes it, and writes its requests to\n\
    LIST, a line each of thirteen fields with single spaces: M in hundredths, angles in\n\
    degrees, Vs30 in m/s, all else in metres, \"-\" for a blank field, a \"~\" before a\n\
    figure that was inferred. pack LIST FILE writes the same file again.\n\
    \n\
    LIST appears whole or not at all, and an old one stays until then. A file that is\n\
    refused gets \"no\" and the number on standard error: 19 for another mark or\n\
    version; 20 where its length is not what its count says; 21 for a field that no\n\
    line could hold.\n\
    \n\
    Example: unpack sites.gmq sites.txt\n\
    \n\
    Exit status: 0 where LIST was written; 1 where FILE is refused or cannot be read\n\
    or LIST cannot be written; 2 for any other arguments.\n";
