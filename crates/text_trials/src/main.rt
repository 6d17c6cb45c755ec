// Texts with their outlines, which the file `stdout` beside this one holds as they should be.
#![tactic(auto)]

static TEXTS: [&[u8]; 117] = [
    b"",
    b"\n",
    b"   \n",
    b"# c\n",
    b"  # c\n",
    b"a = b\n",
    b"a=b\n",
    b"a = b$\n   c\n",
    b"a$\n = b\n",
    b"a = $\n\n",
    b"a =\n",
    b"a = $\n  $\n b\n",
    b"a = 1\nb = $a\na = 2\n",
    b"a = $$ $: $  ${x.y} $x-1\n",
    b"a = b # c\n",
    b"a = \xff\n",
    b"a.b = 1\n",
    b"phony = 1\n",
    b"defaults = 1\n",
    b"a = $!\n",
    b"a = ${b\n",
    b"a = ${}\n",
    b"a = ${b c}\n",
    b"a = $.\n",
    b"a = $",
    b"a = x $%y\n",
    b"a = b",
    b"a = b$\n",
    b"a ",
    b"a",
    b"a $",
    b"a $x = 1\n",
    b"a b = 1\n",
    b"= b\n",
    b"$\na = b\n",
    b" a = b\n",
    b"  $\n a = b\n",
    b"   ",
    b"# c",
    b"a = 1\n  b = 2\n",
    b"rule cc\n  command = gcc $in\n  description = d\n  pool = p\n  restat = 1\n",
    b"rule cc\n command =\n",
    b"rule cc\n\n",
    b"rule cc$\n\n",
    b"rule cc\n# c\n command = x\n",
    b"rule cc\n  # c\n command = x\n",
    b"rule cc\n $\n command = x\n",
    b"rule cc\n command = x\n\n# c\nrule dd\n",
    b"rule cc\n   \na = b\n",
    b"rule cc\nrule dd\n",
    b"rule cc\n\n command = x\n",
    b"rule cc\n  ",
    b"rule cc\n#",
    b"rule cc\n $c",
    b"rule cc\n command x\n",
    b"rule cc\n  depfile = x\n",
    b"rule cc\n  depfile",
    b"rule cc\n  depfile !\n",
    b"rule $x",
    b"rule cc x\n",
    b"rule",
    b"rule = 1\n",
    b"rule cc ",
    b"pool p\n depth = 4\n",
    b"pool p\n depth = 4\n depth = 5\n",
    b"pool p\n command = x\n",
    b"default a\n",
    b"include",
    b"subninja x\n",
    b" default a\n",
    b"a = 1\ndefault b\n",
    b"build a: r\n",
    b"build a:r|b\n",
    b"build a b | c: r d e | f || g |@ h\n  x = 1\n",
    b"build a: r ||@x\n",
    b"build a: r b |@ a\n",
    b"build a: r a\n",
    b"build a: r | || |@\n",
    b"build a: r #b\n",
    b"build a: r $\n b\n",
    b"build a: r b$\n  c d\n",
    b"build a$ b: r c$:d $$e ${f}g $h\n",
    b"build a.b/c: r\n",
    b"build a: r\n  default = 1\n  rule = 2\n",
    b"build a|b:r c||d\n",
    b"build a: r b | c | d\n",
    b"build a || b: r\n",
    b"build a |@ b: r\n",
    b"build a | b | c: r\n",
    b"build a: r |@ b | c\n",
    b"build a: r || b | c\n",
    b"build a: r || b || c\n",
    b"build : r\n",
    b"build | a: r\n",
    b"build",
    b"build a \n",
    b"build a",
    b"build a |",
    b"build a$\n",
    b"build a: \n",
    b"build a: : r\n",
    b"build a: $x\n",
    b"build a: r b: c\n",
    b"build a: r b",
    b"build a: r |",
    b"build a: r $!b\n",
    b"build $",
    b"build a${b: r\n",
    b"build a: r\n x",
    b"build a: r\n x = $.\n",
    b"a = \t\n",
    b"a = b\r\n",
    b"a = \0\n",
    b"=\n\t",
    b"default\n\r\0",
    b"# an example\ncflags = -O2\n\npool link\n  depth = 1\n\nrule cc\n  command = cc $cflags -c $in -o $out\n  description = compile $out\n\nbuild a.o | a.d: cc a.c | a.h || gen |@ check\n  cflags = -O3\n",
    b"build a: r | | \n",
];

// Prints what a text comes to, each line after two spaces.
fn show(rt: &HostRuntime, manifest: &[u8]) -> anyhow::Result<()> {
    let told = outline::outline(rt.alloc(), manifest)?;
    let text = String::from_utf8_lossy(rt.alloc(), &told)?;
    for line in text.lines() {
        println!(rt; "  {line}")?;
    }
    Ok(())
}

// A text of so many equal bytes.
fn show_many(rt: &HostRuntime, b: u8, n: usize) -> anyhow::Result<()> {
    let many = vec![in rt.alloc(); b; n]?;
    show(rt, &many)
}

fn main(rt: HostRuntime) -> anyhow::Result<()> {
    for (i, t) in TEXTS.iter().enumerate() {
        println!(rt; "{}: {}", i + 1, t.escape_ascii())?;
        show(&rt, t)?;
    }
    println!(rt; "65535 line ends")?;
    show_many(&rt, b'\n', 65535)?;
    println!(rt; "65536 line ends")?;
    show_many(&rt, b'\n', 65536)?;
    println!(rt; "65536 tabs")?;
    show_many(&rt, b'\t', 65536)
}
