// What the program says of itself.
pub const TEXT: &str = "hetunawa - a runner for the commands that make a depot's files from others

  hetunawa outline MANIFEST
  hetunawa host SCRIPT [RECORDING]
  hetunawa --help

outline reads the text of a Ninja manifest and prints a line for each statement:
the place of its first byte, its kind and its names. A text that is no manifest
answers `refused N at P`, with the fault's number and byte place:

  refused 1         it has more than 65535 bytes
  refused 2         it has a byte 0, 9 or 13
  refused 3         a byte, or the end, stands where none may stand
  refused 4         a `$` begins nothing
  refused 5         a word of Ninja that is left out here (default, include,
                    subninja), or a variable that the block does not take

host does the calls of SCRIPT, line by line, on a simulated machine, and prints
a line for each. With a RECORDING it does them on a replay of it: there the
commands end in the order that was recorded. In the end it lists the files that
are present.

A machine has files, #0 to #255, each absent or with a stamp (the clock when it
was written) and a mark (a number for its contents); a clock; and the commands
that were started and have not ended, known by an edge, 0 to 127.

  write #F MARK     writes a file from outside             written at CLOCK
  remove #F         removes a file from outside            removed at CLOCK
  tell #F           tells of a file                        absent
                                                           stamp S mark M
  clock             tells the clock                        clock C
  start E reads F F .. outputs F F .. : TEXT
                    starts the command TEXT as edge E      started at CLOCK
  poll              waits until a command ends             good E
                                                           failed E
                                                           none
  break E           breaks the command of edge E off       broken off
                                                           nothing pending

Numbers are decimal, and words are parted by spaces. TEXT is all that stands
behind the line's first colon with a space behind it. A line that is blank or
begins with a `#` and a space is passed over.

A command fails if a file that it reads is absent as it starts, or if its text
begins with `fail`; then its outputs are removed, as they are when it is broken
off. Otherwise it gives each output a mark that follows from its text and from
the marks of the files that it reads. The simulated machine takes a tick for
each byte of a command's text, ends the command that is due first, and leaves
an output alone that has its mark already. A replay writes every output.

A call that cannot be made answers one of

  refused 26        as many commands are started as the machine has room for:
                    16 on the simulated one, 8 on a replay
  refused 27        the clock is spent
  refused 28        there is no such file or edge; or, of a start, the edge has
                    a command already, there are over 64 files to read, no
                    output, over 8 or equal ones, or a text over 1024 bytes
  not understood    the line is no call

A RECORDING is the three letters NJR and then up to 512 bytes, each the number
of an edge; anything else is answered `refused 13`.

The status is 0 once the script is done, and 1 if a file cannot be read, the
recording is refused, memory runs out or the words are no call of the program.
";
