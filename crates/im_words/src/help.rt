//! What the help says at the end: of the program, and of each subcommand.

pub(crate) const EXAMPLES: &str =
    "With no subcommand, imem serves a short script on an image in memory, and prints its replies.

Example:
  imem format --new a.img
  imem run a.img fetch.script
  imem inspect a.img

An image of layout version 1 can be inspected. The subcommands serial, run and serve refuse it with
21 OldVersion; 'imem migrate' moves it to a new file of the version in use.

While imem works on an image, it holds the lock of the image's file. Another imem is then refused with
8 Device, and a line on standard error says that the image is in use. With --wait SECONDS, which each
subcommand takes, imem tries again for that many seconds. Any number of programs may inspect an image at
the same time. The lock is advisory: it doesn't keep another program from writing the file, or from making
another file of the same name.

Exit status: 0 done; 1 refused, with 'refused N NAME' as the last line; 2 a bad command line; 3 the
elements of a run wait for each other; 6 a strict script made an error. With --statuses, which each
subcommand takes, some refusals end with another status than 1. The status is 4 if a file is in use by
another program: another try may succeed. It is 5 if there is no image, if the image is damaged or old, or
if there is no such file or no permission: another try ends the same.

No subcommand opens a file under the descriptor number of a standard stream that is closed.";

const FORMAT: &str =
    "Prints nothing if the image is made. With --new, an existing file is refused and left as it is. Without
--new, an existing file of that name is lost, even if the new image can't be made, for example on a full
disk. A file that didn't exist before is removed again in that case. If standard input is a terminal, imem
asks before it replaces a file that isn't empty: the answer y replaces the file, and any other answer ends
as --new does. A link is followed.

Example: an image of 4,096 cells, 16 elements and 256 journal slots, and a small one
  imem format --new a.img
  imem format --new small.img --cells 64 --elements 2 --slots 16

Exit status: 0 the image is made; 1 refused, with 'refused N NAME' as the last line, also if a number is
out of its range; 2 a bad command line, also if a number isn't written in decimal digits.";

const SERIAL: &str =
    "Each request prints 'K.N REPLY': K is its element, and N its number. At the end, each request that had to
wait prints 'K.N now REPLY'. The image keeps all of this for the next run. SCRIPT is a file, or - for
standard input, which is read to its end before the image is opened.

A script has one line for each request. A line whose first word begins with '#' is a comment.
  setup                 at most once, first; element 0 makes the named blocks that follow
  alloc NAME KIND LEN   make a named block; KIND is i (written once) or m (filled and emptied)
  element K             the lines that follow are requests of element K, 0 to 63
  fetch PLACE           read an i cell, or wait until it is written
  store PLACE VALUE     write an i cell
  take PLACE            empty an m cell, or wait until it is full
  put PLACE VALUE       fill an m cell
  release PLACE         give a block back
  reset PLACE           empty a block's cells
  alloc KIND LEN        make a block
PLACE is an address, NAME or NAME+OFFSET.

With --once, the n-th request of an element in the script has number n. What the image has of the script
isn't asked again: it prints 'K.N REPLY', or 'K.N done' if it was confirmed. So a script that was stopped is
continued by the same command. An image that another script used is refused.

With --quiet, only 'refused N NAME' is printed. With --json, each line is an object:
  {element, number, now, reply}           of 'K.N REPLY', and of 'K.N now REPLY' if now is true; a value or a
                                          base stands under value or base, and 'K.N done' is the reply done
  {refused: {code, name}}                 of 'refused N NAME'
There number, value and base are strings, since they may pass 2^53.

Example: the lines 'setup', 'alloc x i 1', 'element 1', 'fetch x', 'element 2', 'store x 5' in the
file fetch.script, served on the image a.img, and then the rest of it after a stop
  imem serial a.img fetch.script --once
  imem serial a.img fetch.script --once --json | jq -r 'select(.value).value'

Exit status: 0 all was served; 1 something was refused, with 'refused N NAME' as the last line, or the
output can't be written; 2 a bad command line; with --strict 6 in the place of 0, if a reply is nospace,
badlength, clash, nocell, wrongkind, noblock or stillwaiting. A refusal also has a line on standard error,
which says why. So has each reply of an earlier script that is confirmed, 'confirmed K.N REPLY'.";

const RUN: &str =
    "SCRIPT is what 'imem serial' reads, or - for standard input. The setup is served first, and prints its
lines. Then each element has two threads: one sends its requests, and the other serves them. The serving
thread waits for an answer if the element's window is full, and after its last request. One more thread
keeps checkpoints. At the end, each request that was sent prints 'K.N REPLY' with its final reply, sorted
by element and then by number.

With --planned, the script is a plan. Its parts have only fetches, stores and glances, with at most one
store to a cell. Each i cell that they name is empty when they begin. Then the requests print the same
lines in every run, in whatever order the elements are served. A script that is no such plan ends after
its setup with 'refused 23 BadPlan', and none of its parts is served.

With --once, a run that was stopped is continued by the same command, as 'imem serial --once' continues a
script. First each request that the image has prints 'K.N REPLY', or 'K.N done' if it was confirmed. From an
element's first request on that waits, the requests are sent again, and print their final replies as well.
All glances are made. With --planned, its plan is of all its requests, also of those that aren't sent.

With --quiet or --json, it prints what 'imem serial' does, and for a glance {glance, element, value}: glance
is the address, and value null if none was seen.

With --trace, FILE is a new file. At the end each call is written to it with its answer, in the order in
which the calls were served: 'K.N OPERATION -> REPLY', 'confirm K UPTO -> confirmed' or
'collect K.N -> REPLY'. What stands before the arrows is a dialogue for 'imem serve', which gets the same
replies on the image as it was before. If a file of that name exists, nothing is run: 'refused 8 Device'.
If a write of it fails, standard error says so. With --json, each call is an object:
  {element, number, call, reply}          call is the operation, collect or confirm; of confirm, number is UPTO
  with kind and length                    of an alloc
  with address                            of the other operations, and value of a store and a put
What was read, a base, and the N of 'refused N' stand under value, base and refused. There number, value,
base and refused are strings.

Example: the lines 'setup', 'alloc x i 1', 'element 1', 'fetch x', 'element 2', 'store x 5' in the
file fetch.script, run on the image a.img, as a plan, with a trace, and again after a stop
  imem run a.img fetch.script
  imem run b.img fetch.script --planned
  imem run c.img fetch.script --trace c.trace
  imem run a.img fetch.script --once

Exit status: 0 all was answered; 1 something was refused, with 'refused N NAME' as the last line, or the
output can't be written; 2 a bad command line; 3 the elements wait for each other, with
'refused 19 Stalled' as the last line; 6 with --strict, as 'imem serial' says. A refusal also has a line on
standard error, which says why. So has each reply of an earlier script that is confirmed.";

const SERVE: &str =
    "Reads standard input line by line. Prints the answer to each line once what it says is on the disk.
Each request has a number, and a request that is sent again acts only once:
  E.N alloc i|m LENGTH, E.N release A, E.N reset A, E.N fetch A, E.N store A VALUE, E.N take A, E.N put A VALUE
                        element E's request N: 'E.N REPLY' or 'E.N refused NUMBER NAME'
  collect E.N           the reply that is kept for it now
  entry E.N             what it asked, and the reply that is kept for it now
  confirm E UPTO        drop E's entries below UPTO: 'E confirmed UPTO'
  window E              'E window BASE NEXT': the first number that is kept, and the next new one
  cell A                'cell A KIND STATE', with its value or all that wait at it, in order
  block A               'block BASE KIND LENGTH': the block that A lies in
  stat                  how many blocks, cells of each state, and kept entries there are
  room                  how many more commands there is room for
  turn                  one turn of a checkpoint
  count                 how many commands there have been
  about                 the layout's version, how many cells, elements and slots there are, the count, the room
  backup NAME           keep a copy of the image in the folder of --backups: 'backup NAME count N'
  help                  these lines, in one
  quit                  the end
Any other line is answered 'error LINE: ' and what was expected, and changes nothing. With --watch, a
request that waited prints 'E.N now REPLY' right after the line that brought its answer. With --verbose,
standard error has a log: the image's sizes and how many commands it has had; each minute in which lines
were answered, how many; and how many there were at the end.

Example: the lines '1.1 alloc i 1', '1.2 fetch 0' and '2.1 store 0 5' in the file ask.txt
  imem serve a.img < ask.txt

Exit status: 0 the input ended; 1 the image was refused, a call of the disk failed, or the output
can't be written, with 'refused N NAME' as the last line; 2 a bad command line.";

const INSPECT: &str = "The lines, in this order:
  version V
  limits CELLS ELEMENTS SLOTS
  header H generation G area H count C    the header in force
  journal J room R                        J commands after the header, and room for R more
  block BASE KIND LENGTH                  each block, by base
  cell A full V                           each cell that isn't empty, by address
  cell A clashed V                        the cell was written again while it was full
  cell A waiting K.N K.N ..               the requests that wait at the cell, in their order
  element K base B kept N                 each element that has asked something
  entry K.N OPERATION -> REPLY            each entry that is kept for the element, by number
With --cells, --element or --waiting, only the lines that they name: of the cells at these addresses, of
the element and its entries, of the cells that somebody waits for. With --cells and --waiting, of a cell
that both name. If the image has no such cell or element, standard error says which it has.
With --json, each line is an object; the first one stands for the first four lines:
  {version, limits, header, journal, count, next}     as 'imem stat --json' has them
  {block, kind, length}                   the base is the number of block
  {cell, state, value}                    state is full or clashed
  {cell, state, waiters}                  state is waiting; waiters are objects {element, number}
  {element, base, kept}
  {entry, of, operation, reply}           entry is the request's number, of its element
There generation, count, value, base, and the numbers of requests are strings, since they may pass 2^53.
An image that isn't whole is refused: 'refused N NAME' names its first fault.

Example: the image a.img after 'imem format --new a.img', who waits at its first hundred cells, and values
  imem inspect a.img
  imem inspect a.img --cells 0-99 --waiting
  imem inspect a.img --json | jq -c 'select(.value) | [.cell, .value]'

Exit status: 0 the whole report is printed; 1 refused, with 'refused N NAME' as the last line; 2 a bad
command line. If an image is damaged, standard error says where.";

const MIGRATE: &str =
    "OLD is only read. NEW is the file of the new image. If NEW exists, it is used as it is: it must have the
right length, and must not hold an image. If NEW doesn't exist, it is made. Prints 'migrated COUNT': COUNT
is the number of commands that the image has had. The new image has the cells, the blocks and the kept
entries of OLD. If a migration was stopped, the same command starts it again. Until the migration is done,
every other command refuses NEW with 13 NoHeader.

Example: no copy is needed, because the old image stays
  imem migrate old.img new.img
  imem inspect new.img

Exit status: 0 the image is moved; 1 refused, with 'refused N NAME' as the last line: 14 BadHeader if OLD is
of the version in use, 12 WrongLength if NEW has another length, 22 NotBlank if NEW is an image already;
2 a bad command line. A refusal also has a line on standard error, which says why.";

const COPY: &str =
    "OLD is only read. NEW is the file of the copy. If NEW exists, it is used as it is: it must have the right
length, and must not hold an image. If NEW doesn't exist, it is made, and it is removed if the copy is
refused. Prints 'copied COUNT': COUNT is the number of commands that the image has had. The copy has the
cells, the blocks, the requests that wait and the kept entries of OLD. A size that isn't given is that of
OLD. If a copy was stopped, the same command starts it again. Until the copy is done, every other command
refuses NEW with 13 NoHeader.

Example: a backup, and the same image with more cells
  imem copy a.img backup.img
  imem copy a.img larger.img --cells 65536

Exit status: 0 the image is copied; 1 refused, with 'refused N NAME' as the last line: 17 BadLimits if the
cells or elements in use don't fit, 12 WrongLength if NEW has another length, 22 NotBlank if NEW is an image
already; 2 a bad command line. A refusal also has a line on standard error, which says why.";

const DUMP: &str = "The lines, in this order:
  imem dump 1                             the version of such texts
  cells N, elements N, slots N            the sizes, a line each
  count C                                 how many commands the image has had
  cell BASE block KIND LENGTH             a block
  cell A full V, cell A clashed V         a cell that isn't empty, by address
  cell A waits E.N                        a request that waits there, in their order
  element E base B                        an element that has asked something
  entry E.N OPERATION -> ANSWER           an entry that is kept for it, by number
  end                                     the last line
With --json, a text for other programs, which isn't loaded: first the object {dump, limits {cells, elements,
slots}, count} on a line, where dump is 1 and count a string, and then the lines of 'imem inspect --json' for
blocks, cells, elements and entries. An image that isn't whole is refused: 'refused N NAME' names its first
fault.
With --damaged, what the records of such an image still say is printed before that line. It is no dump:
  imem salvage 1 without the journal, of area A     the area that is read; no command behind it is told
  cell A of block BASE KIND LENGTH        its record names this block, and the record before it doesn't
  cell A waits nodes N to M               a list of requests that wait there, by its nodes
  node N K.R next M, node N K.R last      request R of element K is in a list
  cell A damaged, node N damaged, element E damaged, and the lines above

Example: a dump of a.img, the image that is made of it, and what a damaged image still says
  imem dump a.img > a.dump
  imem load a.dump b.img
  imem dump --damaged c.img

Exit status: 0 the whole dump is printed; 1 refused, with 'refused N NAME' as the last line; 2 a bad
command line. If an image is damaged, standard error says where.";

const LOAD: &str =
    "TEXT is a file, or - for standard input, which is read to its end. It has to be the dump of a memory,
letter by letter. NEW is the file of the image. If NEW exists, it is used as it is: it must have the right
length, and must not hold an image. If NEW doesn't exist, it is made, and it is removed if the text is
refused. Prints 'loaded COUNT': COUNT is the number of commands in the text. A size that isn't given is that
in the text. If a load was stopped, the same command starts it again. Until it is done, every other command
refuses NEW with 13 NoHeader.

Example: a dump of a.img, and the image that is made of it
  imem dump a.img > a.dump
  imem load a.dump b.img

Exit status: 0 the image is made; 1 refused, with 'refused N NAME' as the last line: 18 BadScript if the text
is no dump, 17 BadLimits if the cells or elements in use don't fit, 12 WrongLength if NEW has another length,
22 NotBlank if NEW is an image already; 2 a bad command line. A refusal also has a line on standard error,
which says why: of a text, the line, the word, and what is expected there.";

const STAT: &str = "The lines, in this order:
  version V, limits CELLS ELEMENTS SLOTS, header H generation G area H count C    as of 'imem inspect'
  journal J room R stale S      slots with a command behind the header, with room, and with one before it
  count C                       how many commands there have been
  next area A pages P           what the first checkpoint after an opening writes; none of version 1
  i blocks B empty E waiting W full F clashed C      the blocks of kind i, and their cells in each state
  m blocks B empty E waiting W full F clashed C      the same of kind m
  free F holes H longest L      cells in no block, the rows that they stand in, and the longest of them
  waiting R longest L at A      requests that wait, and the longest queue of them, at the lowest such cell
  windows E kept N full F       elements that have asked, entries that are kept, windows with no room
With --json, the same numbers as one object on one line; generation and count are strings, since they may
pass 2^53. Its keys: version, limits {cells, elements, slots}, header {area, generation, count},
journal {run, room, stale}, count, next {area, pages} or null, i and m {blocks, empty, waiting, full,
clashed}, free {cells, holes, longest}, waiting {requests, longest, at}, windows {asked, kept, full}.
An image that isn't whole is refused: 'refused N NAME' names its first fault.

Example: the numbers of a.img, and one of them
  imem stat a.img
  imem stat a.img --json | jq .journal.room

Exit status: 0 all lines are printed; 1 refused, with 'refused N NAME' as the last line; 2 a bad
command line. If an image is damaged, standard error says where.";

/// What the help says at the end of a subcommand, by its name.
pub(crate) fn examples_of(name: &str) -> &'static str {
    match name {
        "format" => FORMAT,
        "serial" => SERIAL,
        "run" => RUN,
        "serve" => SERVE,
        "inspect" => INSPECT,
        "migrate" => MIGRATE,
        "copy" => COPY,
        "dump" => DUMP,
        "load" => LOAD,
        "stat" => STAT,
        _ => "",
    }
}
