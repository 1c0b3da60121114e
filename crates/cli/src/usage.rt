/// How the program is used.
pub(crate) const USAGE: &str =
    "gx judges, shows and writes the messages with which usage is reported, granted and stopped.

  gx check    read messages from standard input, and say of each whether it is sound
  gx show     read messages from standard input, and print each as text
  gx write    read the text of one message from standard input, and print its octets
  gx help     print this text

Input of gx check and gx show: one message to a line, its kind and then its octets in hexadecimal.
The kind is report, answer or command, in lower case. The octets have two digits each, in either case, and may be
split by spaces; - or nothing stands for no octets. Blank lines and lines that begin with # are skipped.

Output of gx check: one line for each message, and a last line with the counts.
  sound                                     the message keeps every rule
  refused CODE LAYER PLACE: SENTENCE        it breaks a rule; LAYER is avp, group or call, and PLACE is the octet,
                                            counted from 0, where the AVP or group at fault starts, or the end of
                                            what lacks a member
  error line N: SENTENCE                    line N of the input is no message
  N messages: S sound, R refused, E errors

Output of gx show: for each sound message its text and a blank line; for any other the line that gx check prints.

The text of a message: a first line with its kind, and a line for each group, 16 at most.
  report NUMBER update|termination          NUMBER is 1 to 1048575
    used KEY LEVEL FORM N [N]
  answer NUMBER update|termination
    grant KEY LEVEL FORM N [N]
    stop KEY LEVEL
  command
    grant KEY LEVEL FORM N [N]
    disable KEY
    request [KEY]
LEVEL is session or rule. FORM is total, uplink, downlink or both; both has two numbers, uplink first. A KEY is 1 to 16
printable characters without space, colon, # and @, or x: and its octets in hexadecimal. Numbers are decimal digits.
Words are split by spaces, and spaces before the first do not count. Blank lines and lines that begin with # are skipped.

Output of gx write: the octets, as one line of lowercase hexadecimal; or, on standard error, the line of the text that is
wrong and what was expected there. The status is then 1.

Examples:
  $ echo 'command 0000042B8000001C000028AF 0000042D80000010000028AF00000000' | gx check
  sound
  1 messages: 1 sound, 0 refused, 0 errors

  $ echo 'command 0000042B8000001C000028AF 0000042D80000010000028AF00000000' | gx show
  command
  request

  $ printf 'command\\ndisable lib1\\n' | gx write
  0000042b8000002c000028af0000042a80000010000028af6c6962310000042e80000010000028af00000000
";
