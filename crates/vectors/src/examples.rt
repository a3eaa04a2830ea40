// SMF's table of numbers, its example as one track and as four, and document 01's bytes worked by hand, but for P1 to
// P12, which are proved: lines as those of standard input, whose answers are written; and lines that are wrong.

// SMF's table of variable-length numbers: each is written, and its bytes are read in both modes.
pub const NUMBERS: &[u8] = b",SMF's table of numbers\n.\n\
      ,00000000\nN 4 0 0:=\nn 1 0: 0=\nn 0 0: 0=\n.\n\
      ,00000040\nN 4 0 40:=\nn 1 0: 40=\nn 0 0: 40=\n.\n\
      ,0000007f\nN 4 0 7F:=\nn 1 0: 7F=\nn 0 0: 7F=\n.\n\
      ,00000080\nN 4 0 80:=\nn 1 0: 81 0=\nn 0 0: 81 0=\n.\n\
      ,00002000\nN 4 0 2000:=\nn 1 0: C0 0=\nn 0 0: C0 0=\n.\n\
      ,00003fff\nN 4 0 3FFF:=\nn 1 0: FF 7F=\nn 0 0: FF 7F=\n.\n\
      ,00004000\nN 4 0 4000:=\nn 1 0: 81 80 0=\nn 0 0: 81 80 0=\n.\n\
      ,00100000\nN 4 0 100000:=\nn 1 0: C0 80 0=\nn 0 0: C0 80 0=\n.\n\
      ,001fffff\nN 4 0 1FFFFF:=\nn 1 0: FF FF 7F=\nn 0 0: FF FF 7F=\n.\n\
      ,00200000\nN 4 0 200000:=\nn 1 0: 81 80 80 0=\nn 0 0: 81 80 80 0=\n.\n\
      ,08000000\nN 4 0 8000000:=\nn 1 0: C0 80 80 0=\nn 0 0: C0 80 80 0=\n.\n\
      ,0fffffff\nN 4 0 FFFFFFF:=\nn 1 0: FF FF FF 7F=\nn 0 0: FF FF FF 7F=\n.\n";

// SMF's example: the bytes behind each track's length, as the document prints them, read in both modes and written back.
pub const TRACKS: &[u8] = b",SMF's example\n.\n\
      ,as one track, strict:\n\
      B 3B 1: 00 FF 58 04 04 02 18 08 00 FF 51 03 07 A1 20 00 C0 05 00 C1 2E 00 C2 46 00 \
      92 30 60 00 3C 60 60 91 43 40 60 90 4C 20 81 40 82 30 40 00 3C 40 00 81 43 40 00 80 4C 40 00 FF 2F 00=\n.\n\
      ,as one track, lenient:\n\
      B 3B 0: 00 FF 58 04 04 02 18 08 00 FF 51 03 07 A1 20 00 C0 05 00 C1 2E 00 C2 46 00 \
      92 30 60 00 3C 60 60 91 43 40 60 90 4C 20 81 40 82 30 40 00 3C 40 00 81 43 40 00 80 4C 40 00 FF 2F 00=\n.\n\
      ,as four tracks, the first, strict:\n\
      B 14 1: 00 FF 58 04 04 02 18 08 00 FF 51 03 07 A1 20 83 00 FF 2F 00=\n.\n\
      ,as four tracks, the first, lenient:\n\
      B 14 0: 00 FF 58 04 04 02 18 08 00 FF 51 03 07 A1 20 83 00 FF 2F 00=\n.\n\
      ,as four tracks, the second, strict:\n\
      B 10 1: 00 C0 05 81 40 90 4C 20 81 40 4C 00 00 FF 2F 00=\n.\n\
      ,as four tracks, the second, lenient:\n\
      B 10 0: 00 C0 05 81 40 90 4C 20 81 40 4C 00 00 FF 2F 00=\n.\n\
      ,as four tracks, the third, strict:\n\
      B F 1: 00 C1 2E 60 91 43 40 82 20 43 00 00 FF 2F 00=\n.\n\
      ,as four tracks, the third, lenient:\n\
      B F 0: 00 C1 2E 60 91 43 40 82 20 43 00 00 FF 2F 00=\n.\n\
      ,as four tracks, the fourth, strict:\n\
      B 15 1: 00 C2 46 00 92 30 60 00 3C 60 83 00 30 00 00 3C 00 00 FF 2F 00=\n.\n\
      ,as four tracks, the fourth, lenient:\n\
      B 15 0: 00 C2 46 00 92 30 60 00 3C 60 83 00 30 00 00 3C 00 00 FF 2F 00=\n.\n";

// Answers that are wrong: the first number, one between, the last, a byte of a buffer, one number less and one more. Each
// is to be told, or no answer is compared.
pub const WRONG: &[u8] = b"- answers that are wrong\n\
      e 0 90 0: 0 F8= 6 0 90 0\n\
      e 0 0 0: 0 90 3C 40= 0 4 90 0 0 9 0 3D 40 0 0 0 0 0\n\
      n 0 0: 81 0= 0 80 2 1\n\
      N 3 0 80:= 0 2 2 81 0 0\n\
      n 0 0: 81 0= 0 80 2\n\
      n 0 0: 81 0= 0 80 2 0 0\n";

// The documents' bytes. More of them stand in the lines of standard input.
pub const WORKED: &[u8] = b",documents 01 and 02\n.\n\
      ,no bytes as an event, strict:\ne 1 0 0:=\n.\n\
      ,no bytes as an event, lenient:\ne 0 0 0:=\n.\n\
      ,no bytes as a list, room 0, strict:\n\
      B 0 1:=\n.\n\
      ,no bytes as a list, room 0, lenient:\n\
      B 0 0:=\n.\n\
      ,the listing's two events, room 7, strict:\n\
      B 7 1: 00 90 3C 40 60 3C 00=\n.\n\
      ,the listing's two events, room 7, lenient:\n\
      B 7 0: 00 90 3C 40 60 3C 00=\n.\n\
      ,the listing's two events, room 6, strict:\n\
      B 6 1: 00 90 3C 40 60 3C 00=\n.\n\
      ,the listing's two events, room 6, lenient:\n\
      B 6 0: 00 90 3C 40 60 3C 00=\n.\n\
      ,timing e7 28:\nt: E7 28=\n.\n\
      ,timing 80 00:\nt: 80 0=\n.\n";
