//! Words that are no command line, and words that ask for help or for the version.

use crate::rows::expect_rows;
use std::test::Fail;

const USAGE: &str = "
in-hex 40
# no word at all: what the program does, and its commands
args
usage -> 2 Compiles
args send
usage -> 2 error:
args page --lang en
usage -> 2 error:
args page --lang en --id 65536 --scope 0 --code 1 --update 0
usage -> 2 error:
args page --lang en --id 4370 --scope 4 --code 1 --update 0
usage -> 2 error:
args page --lang en --id 4370 --scope 0 --code 1024 --update 0
usage -> 2 error:
args page --lang en --id 4370 --scope 0 --code 1 --update 16
usage -> 2 error:
args page --lang en --id 4370 --scope x --code 1 --update 0
usage -> 2 error:
args page --lang en --id 4370 --scope 0 --code -1 --update 0
usage -> 2 error:

in cell,1,1
in write,0,a,4370,0,1,en,2,2,0,1-1,@
args compile --slots 0 --workers 1
usage -> 2 error:
args compile --slots 65536 --workers 1
usage -> 2 error:
args compile --slots 2 --workers 0
usage -> 2 error:
args compile --slots 2 --workers 65
usage -> 2 error:
args compile --slots 2 --workers two
usage -> 2 error:
# only `live` has sessions
args compile --slots 2 --sessions 2
usage -> 2 error:

args live
usage -> 2 error:
args live --slots 0
usage -> 2 error:
args live --slots 2 --sessions 0
usage -> 2 error:
args live --slots 2 --sessions 65
usage -> 2 error:
args live --slots 2 --sessions
usage -> 2 error:
args live --slots 2 --workers 0
usage -> 2 error:

args report
usage -> 2 error:
args report --slots 0
usage -> 2 error:
args report --slots 4 --workers 65
usage -> 2 error:
args report --slots 4 --sessions 1
usage -> 2 error:
args report --slots 4 --full=1
usage -> 2 error:
# only `report` has more columns
args chart --slots 4 --full
usage -> 2 error:

args groups --slots 4
usage -> 2 error:
args groups --group 0
usage -> 2 error:
args report --slots 4 --group 65536
usage -> 2 error:
args report --slots 4 --group -1
usage -> 2 error:
args live --slots 4 --group first
usage -> 2 error:
args read --group 0
usage -> 2 error:
args read --short=1
usage -> 2 error:
# only `read` and `verify` read short pages, and `whole` takes nothing
args pcap --short
usage -> 2 error:
args whole --short
usage -> 2 error:
args chart --slots 4 --network --group 0
usage -> 2 error:
args report --slots 4 --network --group 0
usage -> 2 error:
args compile --slots 4 --group 0 --network
usage -> 2 error:
args report --slots 4 --network=0
usage -> 2 error:
args live --slots 4 --network --group 0
usage -> 2 error:
args groups --network
usage -> 2 error:

# the least and the most, on a book without cells
in-none
args compile --slots=1
run -> 0
args compile --slots=65535
run -> 0
args compile --slots=2 --workers=64
run -> 0
";

const HELP: &str = "
args --help
run -> 0
says Usage: warnc <COMMAND> -> yes
run -> 0
lists compile -> yes
args help
run -> 0
says Usage: warnc <COMMAND> -> yes
run -> 0
lists compile -> yes
args --help
run -> 0
lists groups -> yes
# and the columns of a book
args --help
run -> 0
says update,AT,NAME,LANG,CATEGORY,PERIOD,BROADCASTS,CELLS,TEXT -> yes
args verify --help
run -> 0
says --book <FILE> -> yes
args page --help
run -> 0
says --update <UPDATE> -> yes
args compile --help
run -> 0
says --slots <SLOTS> -> yes
args report --help
run -> 0
says --workers <WORKERS> -> yes

# the version names the toolchain
args --version
run -> 0
out -> warnc 1.23.2
starts rattle-kit- -> yes
args -V
run -> 0
out -> warnc 1.23.2
starts rattle-kit- -> yes

# no device takes the text
args --help
writer 10 0
faults 10 0
run -> 3
";

#[test]
fn other_words_are_refused_and_help_is_written(rt: HostRuntime) -> Result<(), Fail> {
    expect_rows(&rt, USAGE, 94)?;
    expect_rows(&rt, HELP, 40)
}
