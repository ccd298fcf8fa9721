// How the program is used.
pub(crate) const USAGE: &str = "usage:
  inspect demo                              opens and plans an embedded module and says step by step what it finds
  inspect check FILE..                      says of each file whether the loader takes it, or which rule it breaks
  inspect plan FILE BIAS                    the address it begins at, its pages with their rights, and how many there are
  inspect bytes FILE BIAS ADDRESS LENGTH    the bytes that will stand there, and where each comes from
  inspect --help                            this text
Numbers are decimal, or hexadecimal after 0x.

An answer is one line:
  FILE: opened type=T entry=0x.. segments=N relocations=N
  FILE: planned entry=0x.. pages=N
  FILE: bytes address=0x.. length=N
  FILE: refused N layer=L record=R place=0x..
Lines that belong to it follow, indented.
";
